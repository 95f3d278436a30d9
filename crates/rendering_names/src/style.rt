//! How the names of a node are appended.

ghost use Rattle.std.specs.Prelude.{◌≡◌};
ghost use Rattle.laws.specs.Text.{spelled};
ghost use Rattle.rendering_taxonomy.specs.Views.{changes_view};
ghost use Rattle.rendering_names.specs.Around.{NamesAround};
ghost use Rattle.rendering_names.specs.Names.{style_of, and_text, et_al_manner, et_al_term, name_frame, name_manner, node_options};
ghost use Rattle.rendering_names.specs.Views.{names_parts_view, resolved_options_view, name_style_view};
ghost use Rattle.rendering_page.specs.Views.{manner_view, frame_view};
ghost use Rattle.rendering_taxonomy.specs.Formats.{changed};

use crate::options::ResolvedNameOptions;
use crate::parts::NamesParts;
use crate::words::ampersand;
use rendering_locale::AskedLocales;
use rendering_page::{Frame, Manner};
use rendering_style::{EtAl, Name};
use rendering_taxonomy::{EtAlTerm, FormattingChanges, NameAnd, OtherTerm, Term, TermForm};
use std::alloc::Global;
use texts::no_text;

/// Where names are appended: the close quotes inside which punctuation goes, the locales that are asked for words, and how
/// texts are appended there.
#[derive(Clone, Copy)]
pub struct NameSetting<'s, 'a> {
    pub alloc: Global,
    pub quotes: &'s [&'s str],
    pub locales: &'s AskedLocales<'a>,
    pub manner: Manner,
}

/// How the names of a node are appended.
#[derive(Clone, Copy)]
pub(crate) struct NameStyle<'s, 'a> {
    /// Where they are appended, with the node's look.
    pub(crate) setting: NameSetting<'s, 'a>,
    pub(crate) name: Option<&'a Name>,
    pub(crate) et_al: Option<&'a EtAl>,
    pub(crate) options: ResolvedNameOptions<'a>,
}

impl<'s, 'a> NameStyle<'s, 'a> {
    /// How the names of the node are appended: in its own look, and with its options over those around it.
    pub(crate) fn new(
        setting: NameSetting<'s, 'a>,
        node: &NamesParts<'a>,
        options: &ResolvedNameOptions<'a>,
    ) -> NameStyle<'s, 'a>
        ensures style { (around : NamesAround)
            → resolved_options_view options.now ≡ node_options (names_parts_view node.now) around
            → name_style_view result ≡ style_of setting.entry.locales.now
            (manner_view setting.entry.manner) (names_parts_view node.now) around }
        ensures setting { result.setting ≡ setting.entry }
    {
        NameStyle {
            setting,
            name: node.name,
            et_al: node.et_al,
            options: *options,
        }
    }

    /// The sign or the word before the last name; a word that the locales lack is none.
    pub(crate) fn and_text(&self) -> &'a str
        ensures { spelled result ≡ and_text self.now.setting.locales.now self.now.options.and }
    {
        match self.options.and {
            None => no_text(),
            Some(NameAnd::Symbol) => ampersand(),
            Some(NameAnd::Text) => {
                let locales = self.setting.locales;
                locales.term_text(Term::Other(OtherTerm::And), TermForm::Long, false)
            }
        }
    }

    /// The affixes of a single name.
    pub(crate) fn name_frame(&self) -> Frame<'a>
        ensures { frame_view result ≡ name_frame (name_style_view self.now) }
    {
        Frame {
            display: None,
            meta: None,
            manner: self.setting.manner,
            prefix: self.name_prefix(),
            suffix: self.name_suffix(),
        }
    }

    /// The text before a single name.
    fn name_prefix(&self) -> &'a str
        ensures { spelled result ≡ (name_style_view self.now).look.prefix }
    {
        match self.name {
            Some(name) => name.prefix.as_str(),
            None => no_text(),
        }
    }

    /// The text after a single name.
    fn name_suffix(&self) -> &'a str
        ensures { spelled result ≡ (name_style_view self.now).look.suffix }
    {
        match self.name {
            Some(name) => name.suffix.as_str(),
            None => no_text(),
        }
    }

    /// How the text of a single name is appended.
    pub(crate) fn name_manner(&self) -> Manner
        ensures { manner_view result ≡ name_manner (name_style_view self.now) }
    {
        match self.name {
            Some(name) => changed_manner(name.formatting, self.setting.manner),
            None => self.setting.manner,
        }
    }

    /// How the term for those left out is appended.
    pub(crate) fn et_al_manner(&self) -> Manner
        ensures { manner_view result ≡ et_al_manner (name_style_view self.now) }
    {
        match self.et_al {
            Some(et_al) => changed_manner(et_al.formatting, self.setting.manner),
            None => self.setting.manner,
        }
    }

    /// The term for those left out.
    pub(crate) fn et_al_term(&self) -> OtherTerm
        ensures { result ≡ et_al_term (name_style_view self.now).et_al.name }
    {
        match self.et_al {
            Some(et_al) => et_al_term(et_al.term),
            None => OtherTerm::EtAl,
        }
    }
}

/// The term by its name.
fn et_al_term(term: EtAlTerm) -> OtherTerm
    ensures { result ≡ et_al_term term }
{
    match term {
        EtAlTerm::EtAl => OtherTerm::EtAl,
        EtAlTerm::AndOthers => OtherTerm::AndOthers,
    }
}

/// How texts that look otherwise are appended.
pub(crate) fn changed_manner(changes: FormattingChanges, around: Manner) -> Manner
    ensures { manner_view result ≡ record (manner_view around)
        { formatting = changed (changes_view changes) around.formatting } }
{
    Manner {
        formatting: changes.over(around.formatting),
        ..around
    }
}
