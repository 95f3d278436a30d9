//! Serial numbers of entries.

ghost use Rattle.std.specs.Prelude.{◌≡◌, Some, codes, OnOk, OnErr, string_bytes};
ghost use Rattle.std.specs.Option.{option_map};
ghost use Rattle.literature_entries.specs.Names.{serial, with_serial, number_under, with_number};
ghost use Rattle.literature_entries.specs.Views.{serials_view, fields_view, view_in, Sets};

use crate::entry::Entry;
use literature_values::SerialNumber;
use std::alloc::AllocError;
use std::collections::BTreeMap;

/// Each getter returns the number, or none where it is not set. Each setter changes that number alone.
///
/// # Errors
/// Out of memory, where the entry is as it was.
impl Entry {
    /// The number under the name of a scheme, as `serial`.
    pub fn keyed_serial_number(&self, key: &str) -> Option<&str>
        ensures { view_in (λ s. s) result ≡ serial key.now (fields_view self.now) }
    {
        number_under(&self.details.serial_number, key)
    }

    /// Sets the number under the name of a scheme.
    pub fn set_keyed_serial_number(&mut self, key: &str, number: String) -> Result<(), AllocError>
        ensures ok { OnOk result (Sets self.old
            (with_serial key.now (string_bytes number) (fields_view self.old)) self.new) }
        ensures err { OnErr result (Sets self.old (fields_view self.old) self.new) }
    {
        put_number(&mut self.details.serial_number, key, number)
    }

    /// The digital object identifier.
    pub fn doi(&self) -> Option<&str>
        ensures { view_in (λ s. s) result ≡ serial (codes "doi") (fields_view self.now) }
    {
        self.keyed_serial_number("doi")
    }

    /// Sets the digital object identifier.
    pub fn set_doi(&mut self, doi: String) -> Result<(), AllocError>
        ensures ok { OnOk result (Sets self.old
            (with_serial (codes "doi") (string_bytes doi) (fields_view self.old)) self.new) }
        ensures err { OnErr result (Sets self.old (fields_view self.old) self.new) }
    {
        self.set_keyed_serial_number("doi", doi)
    }

    /// The International Standard Book Number.
    pub fn isbn(&self) -> Option<&str>
        ensures { view_in (λ s. s) result ≡ serial (codes "isbn") (fields_view self.now) }
    {
        self.keyed_serial_number("isbn")
    }

    /// Sets the International Standard Book Number.
    pub fn set_isbn(&mut self, isbn: String) -> Result<(), AllocError>
        ensures ok { OnOk result (Sets self.old
            (with_serial (codes "isbn") (string_bytes isbn) (fields_view self.old)) self.new) }
        ensures err { OnErr result (Sets self.old (fields_view self.old) self.new) }
    {
        self.set_keyed_serial_number("isbn", isbn)
    }

    /// The International Standard Serial Number.
    pub fn issn(&self) -> Option<&str>
        ensures { view_in (λ s. s) result ≡ serial (codes "issn") (fields_view self.now) }
    {
        self.keyed_serial_number("issn")
    }

    /// Sets the International Standard Serial Number.
    pub fn set_issn(&mut self, issn: String) -> Result<(), AllocError>
        ensures ok { OnOk result (Sets self.old
            (with_serial (codes "issn") (string_bytes issn) (fields_view self.old)) self.new) }
        ensures err { OnErr result (Sets self.old (fields_view self.old) self.new) }
    {
        self.set_keyed_serial_number("issn", issn)
    }

    /// The PubMed identifier.
    pub fn pmid(&self) -> Option<&str>
        ensures { view_in (λ s. s) result ≡ serial (codes "pmid") (fields_view self.now) }
    {
        self.keyed_serial_number("pmid")
    }

    /// Sets the PubMed identifier.
    pub fn set_pmid(&mut self, pmid: String) -> Result<(), AllocError>
        ensures ok { OnOk result (Sets self.old
            (with_serial (codes "pmid") (string_bytes pmid) (fields_view self.old)) self.new) }
        ensures err { OnErr result (Sets self.old (fields_view self.old) self.new) }
    {
        self.set_keyed_serial_number("pmid", pmid)
    }

    /// The PubMed Central identifier.
    pub fn pmcid(&self) -> Option<&str>
        ensures { view_in (λ s. s) result ≡ serial (codes "pmcid") (fields_view self.now) }
    {
        self.keyed_serial_number("pmcid")
    }

    /// Sets the PubMed Central identifier.
    pub fn set_pmcid(&mut self, pmcid: String) -> Result<(), AllocError>
        ensures ok { OnOk result (Sets self.old
            (with_serial (codes "pmcid") (string_bytes pmcid) (fields_view self.old)) self.new) }
        ensures err { OnErr result (Sets self.old (fields_view self.old) self.new) }
    {
        self.set_keyed_serial_number("pmcid", pmcid)
    }

    /// The arXiv identifier.
    pub fn arxiv(&self) -> Option<&str>
        ensures { view_in (λ s. s) result ≡ serial (codes "arxiv") (fields_view self.now) }
    {
        self.keyed_serial_number("arxiv")
    }

    /// Sets the arXiv identifier.
    pub fn set_arxiv(&mut self, arxiv: String) -> Result<(), AllocError>
        ensures ok { OnOk result (Sets self.old
            (with_serial (codes "arxiv") (string_bytes arxiv) (fields_view self.old)) self.new) }
        ensures err { OnErr result (Sets self.old (fields_view self.old) self.new) }
    {
        self.set_keyed_serial_number("arxiv", arxiv)
    }
}

/// The number under the name of a scheme.
#[tactic(auto, using(crate::proofs::NamesSerials::number_found))]
pub(crate) fn number_under<'n>(numbers: &'n Option<SerialNumber>, scheme: &str) -> Option<&'n str>
    ensures { view_in (λ s. s) result
        ≡ number_under scheme.now (option_map serials_view numbers.now) }
{
    match numbers {
        Some(numbers) => match numbers.0.get(scheme) {
            Some(number) => Some(number.as_str()),
            None => None,
        },
        None => None,
    }
}

/// Puts a number under the name of a scheme.
#[tactic(auto, using(crate::proofs::NamesSerials::number_put))]
pub(crate) fn put_number(
    numbers: &mut Option<SerialNumber>,
    scheme: &str,
    number: String,
) -> Result<(), AllocError>
    ensures ok { OnOk result (option_map serials_view numbers.new ≡ Some
        (with_number scheme.now (string_bytes number) (option_map serials_view numbers.old))) }
    ensures err { OnErr result (option_map serials_view numbers.new
        ≡ option_map serials_view numbers.old) }
{
    let alloc = *number.allocator();
    let scheme = String::from_str(alloc, scheme)?;
    match numbers {
        Some(numbers) => {
            numbers.0.insert(scheme, number)?;
        }
        None => {
            let mut first = BTreeMap::new(alloc);
            first.insert(scheme, number)?;
            *numbers = Some(SerialNumber(first));
        }
    }
    Ok(())
}
