//! Ordinary fields.

ghost use Rattle.std.specs.Prelude.{◌≡◌, ◌-◌, ◌++◌, ◌∷◌, [], not, true, false, IfOk, IfSome, Ok, OnOk, IsOkUnless, if◌then◌else◌, length, reverse};
ghost use Rattle.std.specs.List.{list_all};
ghost use Rattle.std.specs.Str.{chars};
ghost use Rattle.laws.specs.Characters.{hyphen};
ghost use Rattle.laws.specs.Runs.{after};
ghost use Rattle.laws.specs.Text.{text, characters};
ghost use Rattle.biblatex_tex.specs.Character.{is_plain, passes};
ghost use Rattle.biblatex_tex.specs.declared.character.Class.TheVariants.{Plain};
ghost use Rattle.biblatex_tex.specs.declared.error.ContentError.TheVariants.{Memory};
ghost use Rattle.biblatex_content.specs.Ordinary.{kept_in, given, marked_after, given_text, text_in, accented, opened, closed_to, closed_in, dollar, dashes, hyphens_in, sign, command, unit, is_dollar, in_math, step, begun, ended_in, is_run, shown, ordinary};
ghost use Rattle.biblatex_tex.specs.Command.{sign_mark, letter_mark};
ghost use Rattle.biblatex_tex.specs.Token.{written};
ghost use Rattle.biblatex_tex.specs.TokenViews.{token_view};
ghost use Rattle.biblatex_content.specs.Views.{joined, styled, following};
ghost use Rattle.biblatex_tex.specs.Results.{refusal_of};
ghost use Rattle.laws.specs.Results.{Gives, Leaves};
ghost use Rattle.biblatex_content.specs.OrdinaryViews.{state_view, GivesText, GivesJoined};
ghost use Rattle.biblatex_tex.specs.Results.{refusal_of};

use crate::chunk::{Chunks, Kind};
use crate::joining::{Joining, make_room};
use biblatex_tex::{
    Class, ContentError, Lexer, Token, letter_character, letter_mark, paired_tokens, put_marks,
    reversed, sign_character, sign_mark,
};
use std::alloc::{AllocError, Global};
use texts::{empty_text, push_character, push_text, split_first, split_run, take_text};

/// What comes next.
#[derive(Clone, Copy)]
pub(crate) enum Mode {
    /// Anything.
    Free,
    /// The argument of an accent. The number is how many marks still wait where it gives nothing.
    Argument(usize),
    /// Groups directly after a command. The number is how many marks still wait where they give nothing.
    Groups(usize),
    /// More of a math piece. The number is how many groups it stands in.
    InMath(usize),
}

/// The kind and the mode around a group.
#[derive(Clone, Copy)]
pub(crate) struct Frame {
    kind: Kind,
    mode: Mode,
}

/// Whether the byte is no character that begins more than itself. All of these are ASCII.
#[inline(always)]
fn is_plain_byte(byte: u8) -> bool
    ensures { result ≡ is_plain byte }
{
    !matches!(byte, b'\\' | b'{' | b'}' | b'$' | b'~' | b'-')
}

/// Whether no byte is such a character.
fn are_plain(bytes: &[u8]) -> bool
    ensures { result ≡ list_all is_plain bytes.now }
{
    for &byte in bytes {
        if !is_plain_byte(byte) {
            return false;
        }
    }
    true
}

/// Whether each character of the piece stands for itself.
pub(crate) fn is_plain(piece: &str) -> bool
    ensures { result ≡ true → after (passes Plain) (chars piece.now) ≡ [] }
{
    are_plain(piece.as_bytes())
}

/// The number of characters.
fn count_of(text: &str) -> usize
    ensures { result ≡ length (chars text.now) }
{
    text.chars().count()
}

/// Appends the dashes of a run of `count` hyphens.
fn push_dashes(text: &mut String, count: usize) -> Result<(), AllocError>
    ensures { OnOk result (characters text.new ≡ characters text.old ++ dashes count) }
{
    for _ in 0..count / 3 {
        push_character(text, '—')?;
    }
    match count % 3 {
        1 => push_character(text, '-'),
        2 => push_character(text, '–'),
        _ => Ok(()),
    }
}

/// Appends a token as it was written.
fn push_written(text: &mut String, read: Token<'_>) -> Result<(), AllocError>
    ensures { OnOk result (characters text.new
        ≡ characters text.old ++ written (token_view read.entry)) }
{
    match read {
        Token::Text(piece) | Token::Hyphens(piece) => push_text(text, piece),
        Token::Tie => push_character(text, '~'),
        Token::Open(_) => push_character(text, '{'),
        Token::Close => push_character(text, '}'),
        Token::Dollar(_) => push_character(text, '$'),
        Token::Sign(c) => {
            push_character(text, '\\')?;
            push_character(text, c)
        }
        Token::Command(name, blanks) => {
            push_character(text, '\\')?;
            push_text(text, name)?;
            push_text(text, blanks)
        }
    }
}

/// What has been read of a piece of an ordinary field.
#[derive(Drop)]
struct Reading {
    alloc: Global,
    contents: Joining,
    kind: Kind,
    frames: Vec<Frame>,
    marks: Vec<char>,
    mode: Mode,
    math: String,
}

impl Reading {
    /// Before the first token.
    fn new(alloc: Global, contents: Joining) -> Reading
        ensures { state_view result ≡ begun (joined contents) }
    {
        Reading {
            alloc,
            contents,
            kind: Kind::Normal,
            frames: Vec::new(alloc),
            marks: Vec::new(alloc),
            mode: Mode::Free,
            math: empty_text(alloc),
        }
    }

    /// How many marks still wait where what is read now gives nothing.
    fn kept(&self) -> usize
        ensures { result ≡ kept_in self.now.mode self.now.marks.items }
    {
        match self.mode {
            Mode::Argument(kept) | Mode::Groups(kept) => kept,
            Mode::Free | Mode::InMath(_) => self.marks.len(),
        }
    }

    /// Nothing is given: the marks that waited for it go.
    fn give_nothing(&mut self)
        ensures { state_view self.new ≡ given [] (state_view self.old) }
    {
        let kept = self.kept();
        self.marks.truncate(kept);
        self.mode = Mode::Free;
    }

    /// Appends letters, with the marks that wait on the first, which is the last of the list.
    fn push_letters(&mut self, mut letters: Vec<char>) -> Result<(), AllocError>
        ensures { OnOk result (state_view self.new
            ≡ marked_after (reverse letters.items) (state_view self.old)) }
    {
        put_marks(self.alloc, &mut letters, &mut self.marks)?;
        self.contents.push_reversed(self.kind, letters)
    }

    /// Appends a text, with the marks that wait on its first character.
    fn push_text(&mut self, piece: &str) -> Result<(), AllocError>
        ensures { OnOk result (state_view self.new
            ≡ marked_after (chars piece.now) (state_view self.old)) }
    {
        if self.marks.is_empty() {
            return self.contents.push_str(self.kind, piece);
        }
        self.push_letters(reversed(self.alloc, piece)?)
    }

    /// Appends a character, with the marks that wait.
    fn push_character(&mut self, c: char) -> Result<(), AllocError>
        ensures { OnOk result (state_view self.new ≡ marked_after (c ∷ []) (state_view self.old)) }
    {
        if self.marks.is_empty() {
            return self.contents.push(self.kind, c);
        }
        let mut letters = Vec::new(self.alloc);
        letters.push(c)?;
        self.push_letters(letters)
    }

    fn give_character(&mut self, c: char) -> Result<(), AllocError>
        ensures { OnOk result (state_view self.new ≡ given (c ∷ []) (state_view self.old)) }
    {
        self.push_character(c)?;
        self.mode = Mode::Free;
        Ok(())
    }

    /// Gives a text, or waits on where there is none.
    fn give_text(&mut self, piece: &str) -> Result<(), AllocError>
        ensures { OnOk result (state_view self.new
            ≡ given_text (chars piece.now) (state_view self.old)) }
    {
        if split_first(piece).is_some() {
            self.push_text(piece)?;
            self.mode = Mode::Free;
        }
        Ok(())
    }

    /// Reads a text of plain characters.
    fn text(&mut self, piece: &str) -> Result<(), AllocError>
        ensures { OnOk result (state_view self.new
            ≡ given_text (text_in self.old.mode (chars piece.now)) (state_view self.old)) }
    {
        match self.mode {
            Mode::Argument(_) => self.give_text(split_run(piece, Class::Blank).1),
            _ => self.give_text(piece),
        }
    }

    /// Begins to wait for the argument of an accent.
    fn accent(&mut self, mark: char) -> Result<(), ContentError>
        ensures accented { OnOk result (state_view self.new ≡ accented mark (state_view self.old)) }
        ensures memory { IsOkUnless result Memory }
    {
        let kept = self.kept();
        self.marks.push(mark)?;
        self.mode = Mode::Argument(kept);
        Ok(())
    }

    /// Begins a group.
    fn open(&mut self, is_command: bool) -> Result<(), ContentError>
        ensures opened { OnOk result (state_view self.new
            ≡ opened is_command (state_view self.old)) }
        ensures memory { IsOkUnless result Memory }
    {
        self.frames.push(Frame {
            kind: self.kind,
            mode: self.mode,
        })?;
        match self.mode {
            Mode::Free if !is_command => self.kind = Kind::Verbatim,
            Mode::Argument(_) | Mode::Groups(_) => self.mode = Mode::Free,
            Mode::Free | Mode::InMath(_) => {}
        }
        Ok(())
    }

    /// Ends a group, if one is open.
    fn close_group(&mut self) -> Result<(), ContentError>
        ensures { Leaves refusal_of result (state_view self.new)
            (closed_to (state_view self.old).frames (state_view self.old)) }
    {
        let Some(frame) = self.frames.pop() else {
            return Err(ContentError::MalformedCommand);
        };
        self.kind = frame.kind;
        self.mode = frame.mode;
        if let Mode::Argument(kept) = frame.mode {
            self.marks.truncate(kept);
            self.mode = Mode::Free;
        }
        Ok(())
    }

    /// Ends a group, in which no accent may wait for an argument.
    fn close(&mut self) -> Result<(), ContentError>
        ensures { Leaves refusal_of result (state_view self.new)
            (closed_in self.old.mode (state_view self.old)) }
    {
        match self.mode {
            Mode::Argument(_) => Err(ContentError::MalformedCommand),
            _ => self.close_group(),
        }
    }

    /// Begins a math piece, or gives a dollar sign that has no partner.
    fn dollar(&mut self, has_partner: bool) -> Result<(), AllocError>
        ensures { OnOk result (state_view self.new ≡ dollar has_partner (state_view self.old)) }
    {
        if !has_partner {
            return self.give_character('$');
        }
        self.marks.clear();
        self.mode = Mode::InMath(self.frames.len());
        Ok(())
    }

    /// Reads a run of hyphens.
    fn hyphens(&mut self, run: &str) -> Result<(), AllocError>
        ensures { OnOk result (state_view self.new
            ≡ given (hyphens_in self.old.mode (length (chars run.now))) (state_view self.old)) }
    {
        let count = count_of(run);
        match self.mode {
            Mode::Argument(_) => self.hyphen_argument(count),
            _ => self.dashes(count),
        }
    }

    /// Gives the dashes of a run of `count` hyphens.
    fn dashes(&mut self, count: usize) -> Result<(), AllocError>
        ensures { OnOk result (state_view self.new ≡ given (dashes count) (state_view self.old)) }
    {
        match count {
            1 => self.give_character('-'),
            2 => self.give_character('–'),
            _ => {
                let mut text = empty_text(self.alloc);
                push_dashes(&mut text, count)?;
                self.give(text.as_str())
            }
        }
    }

    /// Gives a hyphen, and the dashes of the other hyphens of a run of `count`.
    fn hyphen_argument(&mut self, count: usize) -> Result<(), AllocError>
        ensures { OnOk result (state_view self.new
            ≡ given (hyphen ∷ dashes (count - 1)) (state_view self.old)) }
    {
        if count <= 1 {
            return self.give_character('-');
        }
        let mut text = empty_text(self.alloc);
        push_character(&mut text, '-')?;
        push_dashes(&mut text, count - 1)?;
        self.give(text.as_str())
    }

    /// Gives a text.
    fn give(&mut self, piece: &str) -> Result<(), AllocError>
        ensures { OnOk result (state_view self.new
            ≡ given (chars piece.now) (state_view self.old)) }
    {
        if split_first(piece).is_none() {
            self.give_nothing();
            return Ok(());
        }
        self.give_text(piece)
    }

    /// Reads a backslash and a sign.
    fn sign(&mut self, c: char) -> Result<(), ContentError>
        ensures sign { OnOk result (state_view self.new
            ≡ sign (sign_mark c) c (state_view self.old)) }
        ensures memory { IsOkUnless result Memory }
    {
        if let Some(mark) = sign_mark(c) {
            return self.accent(mark);
        }
        match sign_character(c) {
            Some(given) => self.give_character(given)?,
            None => self.give_nothing(),
        }
        Ok(())
    }

    /// Reads a command of letters.
    #[tactic(auto, using(laws::proofs::Text::text_of_chars))]
    fn command(&mut self, name: &str) -> Result<(), ContentError>
        ensures command { OnOk result (state_view self.new ≡ command
            (letter_mark (text (chars name.now))) (text (chars name.now)) (state_view self.old)) }
        ensures memory { IsOkUnless result Memory }
    {
        if let Some(mark) = letter_mark(name) {
            return self.accent(mark);
        }
        match letter_character(name) {
            Some(c) => self.give_character(c)?,
            None => self.mode = Mode::Groups(self.kept()),
        }
        Ok(())
    }

    /// Reads a token outside math.
    fn unit(&mut self, read: Token<'_>) -> Result<(), ContentError>
        ensures { Leaves refusal_of result (state_view self.new)
            (unit (token_view read.entry) (state_view self.old)) }
    {
        match read {
            Token::Text(text) => self.text(text)?,
            Token::Hyphens(run) => self.hyphens(run)?,
            Token::Tie => self.give_character('\u{a0}')?,
            Token::Open(is_command) => self.open(is_command)?,
            Token::Close => self.close()?,
            Token::Dollar(has_partner) => self.dollar(has_partner)?,
            Token::Sign(c) => self.sign(c)?,
            Token::Command(name, _) => self.command(name)?,
        }
        Ok(())
    }

    /// Reads a token in a math piece that stands in `depth` groups.
    fn in_math(&mut self, depth: usize, read: Token<'_>) -> Result<(), ContentError>
        ensures { Leaves refusal_of result (state_view self.new)
            (in_math depth (token_view read.entry) (state_view self.old)) }
    {
        match read {
            Token::Dollar(_) if self.frames.len() == depth => {
                let math = take_text(self.alloc, &mut self.math);
                self.contents.push_math(&(0..0), math)?;
                self.mode = Mode::Free;
                return Ok(());
            }
            Token::Open(is_command) => self.open(is_command)?,
            Token::Close => self.close_group()?,
            _ => {}
        }
        Ok(push_written(&mut self.math, read)?)
    }

    /// Reads a token.
    #[tactic(auto, unfolding(crate::specs::Ordinary::step))]
    fn step(&mut self, read: Token<'_>) -> Result<(), ContentError>
        ensures { Leaves refusal_of result (state_view self.new)
            (step (token_view read.entry) (state_view self.old)) }
    {
        match (self.mode, read) {
            (Mode::InMath(depth), _) => return self.in_math(depth, read),
            (Mode::Groups(_), Token::Open(_)) => {}
            (Mode::Groups(_), _) => self.give_nothing(),
            _ => {}
        }
        self.unit(read)
    }

    /// Reads a token, and says whether it may not stand there.
    fn refuses(&mut self, read: Token<'_>) -> Result<bool, AllocError>
        ensures { IfOk result (λ refused. refused ≡ false
            → step (token_view read.entry) (state_view self.old) ≡ Ok (state_view self.new)) }
    {
        match self.step(read) {
            Ok(()) => Ok(false),
            Err(ContentError::MalformedCommand) => Ok(true),
            Err(ContentError::Memory) => Err(AllocError),
        }
    }

    /// What was read, if the piece may end.
    fn whole(self) -> Option<Joining>
        ensures { IfSome result (λ whole.
            ended_in self.mode (reverse self.frames.items) (joined self.contents)
            ≡ Ok (joined whole)) }
    {
        match self.end() {
            Ok(contents) => Some(contents),
            Err(_) => None,
        }
    }

    /// What was read, where the piece may end.
    fn end(self) -> Result<Joining, ContentError>
        ensures { Gives refusal_of joined result
            (ended_in self.mode (reverse self.frames.items) (joined self.contents)) }
    {
        match self.mode {
            Mode::Free | Mode::Groups(_) if self.frames.is_empty() => Ok(self.contents),
            _ => Err(ContentError::MalformedCommand),
        }
    }
}

impl Joining {
    /// What was joined so far, with a piece of an ordinary field after it.
    fn push_tokens(self, piece: &str) -> Result<Joining, ContentError>
        ensures { Gives refusal_of joined result
            (following (joined self) (ordinary (chars piece.now))) }
    {
        let alloc = self.allocator();
        let mut tokens = paired_tokens(alloc, piece)?;
        let mut reading = Reading::new(alloc, self);
        while let Some(token) = tokens.pop() {
            reading.step(token)?;
        }
        reading.end()
    }
}

/// Whether no byte is a character that begins more than itself or a run of hyphens. A piece without such is read faster.
fn may_be_dashed(bytes: &[u8]) -> bool {
    for &byte in bytes {
        if matches!(byte, b'\\' | b'{' | b'}' | b'$' | b'~') {
            return false;
        }
    }
    true
}

/// Appends what a token gives that is a text or a run of hyphens, and says whether it is another one.
fn push_run(text: &mut String, read: Token<'_>) -> Result<bool, AllocError>
    ensures other { IfOk result (λ other. other ≡ not (is_run (token_view read.entry))) }
    ensures text { IfOk result (λ other. other ≡ false
        → characters text.new ≡ characters text.old ++ shown (token_view read.entry)) }
{
    match read {
        Token::Text(piece) => {
            push_text(text, piece)?;
            Ok(false)
        }
        Token::Hyphens(run) => {
            push_dashes(text, count_of(run))?;
            Ok(false)
        }
        _ => Ok(true),
    }
}

/// The text of a piece of an ordinary field that is texts and runs of hyphens alone; none of another one.
pub(crate) fn dashed(alloc: Global, piece: &str) -> Result<Option<String>, ContentError>
    ensures { GivesText result (ordinary (chars piece.now)) }
{
    if !may_be_dashed(piece.as_bytes()) {
        return Ok(None);
    }
    let mut lexer = Lexer::new(piece);
    let mut text = empty_text(alloc);
    make_room(&mut text, piece.len())?;
    while let Some(token) = lexer.next_token()? {
        let is_other = push_run(&mut text, token)?;
        if is_other {
            return Ok(None);
        }
    }
    Ok(Some(text))
}

/// Whether the token is a dollar sign.
fn is_dollar(token: &Token<'_>) -> bool
    ensures { result ≡ is_dollar (token_view token.now) }
{
    match token {
        Token::Dollar(_) => true,
        _ => false,
    }
}

/// What a piece of an ordinary field gives, token by token; none where a dollar sign is among them, which may have a partner, or one
/// may not stand where it does.
fn streamed(alloc: Global, piece: &str) -> Result<Option<Joining>, ContentError>
    ensures { GivesJoined result (ordinary (chars piece.now)) }
{
    let mut lexer = Lexer::new(piece);
    let mut reading = Reading::new(alloc, Joining::new(alloc));
    while let Some(token) = lexer.next_token()? {
        let is_paired = is_dollar(&token);
        if is_paired {
            return Ok(None);
        }
        let is_refused = reading.refuses(token)?;
        if is_refused {
            return Ok(None);
        }
    }
    Ok(reading.whole())
}

/// The chunks of a piece of an ordinary field, whose dollar signs may have partners.
#[tactic(auto, using(crate::proofs::OrdinaryPieces::after_nothing))]
fn read_paired(alloc: Global, piece: &str) -> Result<Chunks, ContentError>
    ensures { Gives refusal_of (λ cs. styled cs.items) result (ordinary (chars piece.now)) }
{
    Ok(Joining::new(alloc).push_tokens(piece)?.into_chunks()?)
}

/// The chunks of a piece of an ordinary field. Without dollar signs its tokens are not listed.
pub(crate) fn read_ordinary(alloc: Global, piece: &str) -> Result<Chunks, ContentError>
    ensures { Gives refusal_of (λ cs. styled cs.items) result (ordinary (chars piece.now)) }
{
    if let Some(read) = streamed(alloc, piece)? {
        let chunks = read.into_chunks()?;
        return Ok(chunks);
    }
    read_paired(alloc, piece)
}
