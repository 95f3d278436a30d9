//! Where the parent of a dependent style may lie.

ghost use Rattle.std.specs.Prelude.{◌≡◌, ◌++◌, ℕ, List, codes, is_some, IfOk, string_bytes};
ghost use Rattle.std.specs.Option.{option_map};
ghost use Rattle.programs.specs.Files.{read_at};
ghost use Rattle.xml_tree.specs.Trees.{content_of};
ghost use Rattle.xml_tree.specs.Views as views;
ghost use Rattle.xml_tree.specs.Views.{element_view};
ghost use Rattle.csl_styles.specs.Information.{parent_address};
ghost use Rattle.cite_csl_styles.specs.Sheets as specs;
ghost use Rattle.cite_csl_styles.specs.Sheets.{above, beside, link_in, parent_left, parents_of, ParentsAt};
ghost use Rattle.cite_csl_styles.specs.Views.{found_view, paths_view};

use crate::sheets::{Found, found_at};
use crate::sources::file_at;
use crate::stop::Stop;
use csl_styles::Csl;
use csl_words::{attribute, children_of, is_called, part_called, says};
use programs::FileRead;
use std::alloc::{AllocError, Global};
use xml_tree::Element;

/// The paths at which a parent may lie.
#[derive(Drop)]
pub struct ParentPaths {
    /// In the folder of the dependent style.
    pub beside: String,
    /// In the folder above that.
    pub above: String,
}

/// The directory of a path: what stands up to its last slash.
fn directory(path: &str) -> &str
    ensures { result.now ≡ specs.directory path.now }
{
    match path.rfind('/') {
        Some(at) => &path[..at + 1],
        None => "",
    }
}

/// The path of a style of that name in a directory.
fn path_in(alloc: Global, directory: &str, between: &str, name: &str) -> Result<String, AllocError>
    ensures { IfOk result (λ s. string_bytes s
        ≡ directory.now ++ (between.now ++ (name.now ++ codes ".csl"))) }
{
    let mut path = String::from_str(alloc, directory)?;
    path.push_str(between)?;
    path.push_str(name)?;
    path.push_str(".csl")?;
    Ok(path)
}

/// Where the parent of that name of the style at a path may lie.
fn paths_of(alloc: Global, path: &str, name: &str) -> Result<ParentPaths, AllocError>
    ensures { IfOk result (λ p. paths_view p
        ≡ (beside path.now name.now, above path.now name.now)) }
{
    let folder = directory(path);
    Ok(ParentPaths {
        beside: path_in(alloc, folder, "", name)?,
        above: path_in(alloc, folder, "../", name)?,
    })
}

/// Where the parent of a file may lie, if it is a dependent style.
pub fn paths_for(alloc: Global, found: &Found<'_>) -> Result<Option<ParentPaths>, AllocError>
    ensures { IfOk result (λ p. option_map paths_view p ≡ parents_of (found_view found.now)) }
{
    match &found.means {
        Csl::Dependent { parent, .. } => {
            Ok(Some(paths_of(alloc, found.file.path, parent.as_str())?))
        }
        _ => Ok(None),
    }
}

/// Where the parent of the style at a path may lie: nothing where that is no dependent style, or cannot be read.
///
/// # Errors
/// Where a request for memory was refused.
pub fn parent_paths(
    alloc: Global,
    style: &str,
    files: &[FileRead<'_>],
) -> Result<Option<ParentPaths>, AllocError>
    ensures { IfOk result (λ p. ParentsAt (read_at files.now) style.now (option_map paths_view p)) }
{
    match found_at(alloc, file_at(files, style)) {
        Ok(found) => paths_for(alloc, &found),
        Err(Stop::Memory) => Err(AllocError),
        Err(Stop::Refused(_)) => Ok(None),
    }
}

/// Whether a link has the address of the parent.
fn is_parent_link(element: &Element<'_>) -> bool
    ensures { result ≡ is_some (parent_address (element_view element.now)) }
{
    is_called("link", element)
        && says("rel", "independent-parent", element)
        && attribute("href", element).is_some()
}

/// Where the first of these elements begins that is such a link.
fn link_among(children: &[(String, Element<'_>)]) -> Option<usize>
    ensures { (t : List ℕ)
        → result ≡ link_in (content_of (views.children_of children.now) t) }
{
    for child in children {
        if is_parent_link(&child.1) {
            return Some(child.1.left);
        }
    }
    None
}

/// Where the link to the parent of a dependent style begins.
pub fn parent_left(root: &Element<'_>) -> usize
    ensures { result ≡ parent_left (element_view root.now) }
{
    match part_called("info", root) {
        Some(info) => link_among(children_of(info)).unwrap_or(root.left),
        None => root.left,
    }
}
