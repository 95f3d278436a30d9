//! Why a text is no XML.

use xml_text::Fault;

/// The name of a fault.
pub(crate) fn fault_name(fault: Fault) -> &'static str {
    match fault {
        Fault::Unclosed => "Unclosed",
        Fault::Unexpected => "Unexpected",
        Fault::Doctype => "Doctype",
        Fault::ReservedTarget => "ReservedTarget",
        Fault::Declaration => "Declaration",
        Fault::Encoding => "Encoding",
        Fault::UnknownEntity => "UnknownEntity",
        Fault::NoCharacter => "NoCharacter",
        Fault::Repeated => "Repeated",
        Fault::Namespace => "Namespace",
        Fault::Unbound => "Unbound",
        Fault::TooDeep => "TooDeep",
        Fault::SecondRoot => "SecondRoot",
        Fault::Unopened => "Unopened",
        Fault::Mismatched => "Mismatched",
        Fault::Outside => "Outside",
        Fault::NoRoot => "NoRoot",
        Fault::Unfinished => "Unfinished",
    }
}
