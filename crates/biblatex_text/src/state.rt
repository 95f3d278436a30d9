//! Texts cut where a run ends, by the states that the run comes to.

ghost use Rattle.std.specs.Prelude.{◌≡◌, ◌+◌, ◌^◌, ◌<◌, ◌≤◌, ◌++◌, length, IfSome};
ghost use Rattle.std.specs.Option.{option_map};
ghost use Rattle.std.specs.Str.{chars, IsUtf8};
ghost use Rattle.laws.specs.Text.{text as text_of};
ghost use Rattle.biblatex_text.specs.Run.{depth_of, next, prefix_of, after};
ghost use Rattle.biblatex_text.specs.declared.run.Run.{Run};

/// How far a run has come. A run that carries most of the text has a state of its own, whose next state takes few tests.
pub(crate) trait RunState: Copy {
    /// The run that has come so far.
    ghost run: { Self → Run };

    /// The state after one more character, or none where the run ends before the character.
    fn next(self, c: char) -> Option<Self>
        requires { depth_of (run self) + 1 < 2 ^ 64 }
        ensures value { option_map run result ≡ next (run self) c }
        ensures grows { IfSome result (λ state. depth_of (run state) ≤ depth_of (run self) + 1) };
}

/// How many bytes the text has, which spell its characters.
pub(crate) fn byte_len(text: &str) -> usize
    ensures bytes { result ≡ length text.now }
    ensures spelled { result ≡ length (text_of (chars text.now)) }
    ensures fits { result < 2 ^ 64 }
{
    text.len()
}

/// The longest prefix that goes on with the run, and what follows it.
pub(crate) fn split_states<S: RunState>(text: &str, start: S) -> (&str, &str)
    requires { depth_of (S.run start) ≡ 0 }
    ensures parts { text.now ≡ result.0.now ++ result.1.now }
    ensures utf8 { IsUtf8 result.1.now }
    ensures prefix { chars result.0.now ≡ prefix_of (S.run start) (chars text.now) }
    ensures rest { chars result.1.now ≡ after (S.run start) (chars text.now) }
{
    let end = byte_len(text);
    let mut state = start;
    for (i, c) in text.char_indices() {
        match state.next(c) {
            Some(more) => state = more,
            None => return text.split_at(i),
        }
    }
    text.split_at(end)
}
