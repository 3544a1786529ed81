// One function for each stage at which a command may be refused.
ghost use Rattle.std.specs.Prelude.{◌≡◌, ◌≤◌, ◌<◌, ◌^◌, length, Ok, IfOk, IfErr, IsOk, IfSome, IsErrAnd, vec_len};
ghost use Rattle.std.specs.Prelude.{option_map};
ghost use Rattle.frozen_cli.specs.Changes.{seen, ReadsFiles};
ghost use Rattle.frozen_cli.specs.Stages.{StageGives, HeldStageGives, ReadStage};
ghost use Rattle.frozen_cli.specs.Refusal.{IsRefused, IsReading};
ghost use Rattle.frozen_cli.specs.Opened.{value_held as value_in_file, file_held, value_under};
ghost use Rattle.frozen_cli.specs.Reply.{DefinitionStage, ValueStage, FileStage, BindStage, PathStage};
ghost use Rattle.frozen_cli.specs.Reply.{FitStage, PartStage, CellsStage, Freezes, Upgrades, Demonstrates};
ghost use Rattle.frozen_cli.specs.Reply.{Thaws, Writes, check_line};
ghost use Rattle.frozen_cli.specs.Reply.{shown as shown_text};
ghost use Rattle.frozen_model.specs.Values.{Of, cells, cell_limit};
ghost use Rattle.frozen_laws.specs.Laws.{IsContent};
ghost use Rattle.layout_tree.specs.Nodes.{layout_of};
ghost use Rattle.type_kinds.specs.KindsOf.{kinds_of};
ghost use Rattle.type_kinds.specs.Accepted.{HasShortTexts};
ghost use Rattle.typed_tree.specs.References.{value_of_tree};
ghost use Rattle.typed_tree.specs.Parts.{IsItems};
ghost use Rattle.idl_profile.specs.Types.{root_of};
ghost use Rattle.idl_print.specs.Printed.{printed as printed_text};
ghost use Rattle.idl_parse.specs.Parsed.{definition_of};
ghost use Rattle.idl_parse.specs.Refs.{type_of_ref};
ghost use Rattle.path_text.specs.Views.{path_of};
ghost use Rattle.path_text.specs.Fitting.{fitted as fitted_to};
ghost use Rattle.typed_tree.specs.Sizes.{capped};
ghost use Rattle.cli_texts.specs.Listing.{listing};
ghost use Rattle.evolve.specs.Bound.{IsBound};
ghost use Rattle.evolve.specs.Parts.{at};
ghost use Rattle.evolve.specs.Lenses.{value_of_lens, type_of_lens};

use crate::ids::ids_text;
use crate::refusal::{Failure, Refusal, Role};
use crate::words::Showing;
use cli_texts::layout_text;
use compact_codec::decode;
use demo_table::{demo, demo_line};
use evolve::{BindFault, Lens, Plan, bind as bind_definition};
use file_check::{OpenFault, Opened, open_frozen};
use file_value::value_of;
use frozen_file::{frozen_file, refrozen_file};
use fz_base::{Files, ReadFault, Steps, read_whole};
use json_line::{item_lines, json_line};
use lens_lookup::lookup;
use lens_values::{ThawFault, lens_cells, thaw};
use path_text::{Path, PathFault, fit, fit_scan, parse_path};
use std::alloc::Global;
use std::marker::Brand;
use std::sync::ledger::{Blank, Ledger};
use thrift_idl::{DefFault, Definition, TypeRef, parse, print};
use typed_reading::ValueFault;
use typed_tree::Tree;

// The most cells of a value that is written.
const CELL_LIMIT: u64 = 33_554_432;

/// Reads a file of at most `limit` bytes.
pub fn read_role<F: Files>(
    alloc: Global,
    files: &mut F,
    role: Role,
    name: &str,
    limit: u64,
) -> Result<Vec<u8>, Failure>
    requires { limit ≤ 2 ^ 40 }
    ensures gives { HeldStageGives (F.held files.old) (λ bytes. bytes.items)
        (λ held. ReadStage role limit (held name.now)) result }
    ensures within { IfOk result (λ bytes. vec_len bytes ≤ limit) }
    ensures reads { ReadsFiles (seen F.held F.misses F.faults files.old files.new) result }
{
    match read_whole(alloc, files, name, limit) {
        Ok(bytes) => Ok(bytes),
        Err(ReadFault::Missing) => Err(Failure::Refused(Refusal::Missing(role))),
        Err(ReadFault::Failed) => Err(Failure::Refused(Refusal::Unreadable(role))),
        Err(ReadFault::TooLarge) => Err(Failure::Refused(Refusal::TooLarge(role))),
        Err(ReadFault::NoMemory) => Err(Failure::NoMemory),
    }
}

/// The definition that a text means.
pub fn definition(alloc: Global, text: &[u8]) -> Result<Definition, Failure>
    requires { length text.now < 2 ^ 31 }
    ensures gives { StageGives definition_of (DefinitionStage text.now) result }
    ensures short { IfOk result (λ d. HasShortTexts (root_of (definition_of d))) }
    ensures no_file { IsErrAnd result (IsRefused IsReading) → ⊥ }
{
    match parse(alloc, text) {
        Ok(def) => Ok(def),
        Err(DefFault::NoMemory) => Err(Failure::NoMemory),
        Err(fault) => Err(Failure::Refused(Refusal::BadDefinition(fault))),
    }
}

/// The text of a definition.
pub fn printed(alloc: Global, def: &Definition) -> Result<Vec<u8>, Failure>
    ensures gives { StageGives (λ out. out.items) (Writes (printed_text (definition_of def.now))) result }
    ensures no_file { IsErrAnd result (IsRefused IsReading) → ⊥ }
{
    Ok(print(alloc, def)?.into_bytes())
}

/// The value of the root's type that the bytes spell in Compact Protocol.
pub fn value(alloc: Global, def: &Definition, bytes: &[u8]) -> Result<Tree, Failure>
    ensures gives { StageGives value_of_tree (ValueStage (definition_of def.now) bytes.now) result }
    ensures kinds { IfOk result (λ tree.
        Of (kinds_of (root_of (definition_of def.now))) (value_of_tree tree)) }
    ensures few { IfOk result (λ tree.
        cells (kinds_of (root_of (definition_of def.now))) (value_of_tree tree) ≤ cell_limit) }
    ensures no_file { IsErrAnd result (IsRefused IsReading) → ⊥ }
{
    match decode(alloc, def.root(), bytes) {
        Ok(tree) => Ok(tree),
        Err(ValueFault::NoMemory) => Err(Failure::NoMemory),
        Err(fault) => Err(Failure::Refused(Refusal::BadValue(fault))),
    }
}

/// The frozen file of a value in its least layout.
pub fn freeze_value(alloc: Global, def: &Definition, value: &Tree) -> Result<Vec<u8>, Failure>
    requires form { Of (kinds_of (root_of (definition_of def.now))) (value_of_tree value.now) }
    requires few { cells (kinds_of (root_of (definition_of def.now))) (value_of_tree value.now) ≤ cell_limit }
    ensures gives { StageGives (λ out. out.items)
        (Freezes (definition_of def.now) (value_of_tree value.now)) result }
    ensures no_file { IsErrAnd result (IsRefused IsReading) → ⊥ }
{
    Ok(frozen_file(alloc, def, value.top())?)
}

/// The value of an opened file as a tree.
pub fn value_held(alloc: Global, opened: &Opened<'_>) -> Result<Tree, Failure>
    requires { IsContent (layout_of opened.now.layouts).tree (value_in_file opened.now)
        opened.now.content.now }
    ensures value { IfOk result (λ t. value_of_tree t ≡ value_in_file opened.now) }
    ensures form { IfOk result (λ t. Of (layout_of opened.now.layouts).tree (value_of_tree t)) }
    ensures few { IfOk result (λ t.
        cells (layout_of opened.now.layouts).tree (value_of_tree t) ≤ cell_limit) }
    ensures memory { IfErr result (λ e. e ≡ Failure.NoMemory) }
{
    Ok(value_of(alloc, opened)?)
}

/// The frozen file of a value in the least layout of version 2 of the same kinds as an opened file's.
pub fn refrozen(alloc: Global, opened: &Opened<'_>, value: &Tree) -> Result<Vec<u8>, Failure>
    requires value { value_of_tree value.now ≡ value_in_file opened.now }
    requires form { Of (layout_of opened.now.layouts).tree (value_of_tree value.now) }
    requires few { cells (layout_of opened.now.layouts).tree (value_of_tree value.now) ≤ cell_limit }
    ensures gives { StageGives (λ out. out.items) (Upgrades (file_held opened.now)) result }
    ensures no_file { IsErrAnd result (IsRefused IsReading) → ⊥ }
{
    Ok(refrozen_file(alloc, &opened.layouts, value.top())?)
}

/// The line of a demo of so many rows.
pub fn demonstrated(alloc: Global, rows: u32) -> Result<Vec<u8>, Failure>
    requires some { 1 ≤ rows }
    requires few { rows ≤ 100000 }
    ensures gives { StageGives (λ out. out.items) (Demonstrates rows) result }
    ensures no_file { IsErrAnd result (IsRefused IsReading) → ⊥ }
{
    let demo = demo(alloc, rows)?;
    Ok(demo_line(alloc, &demo)?.into_bytes())
}

/// The layout and the content of a frozen file.
pub fn file(alloc: Global, bytes: &[u8]) -> Result<Opened<'_>, Failure>
    requires { length bytes.now < 2 ^ 56 }
    ensures gives { StageGives file_held (FileStage bytes.now) result }
    ensures held { IfOk result (λ o.
        IsContent (layout_of o.layouts).tree (value_in_file o) o.content.now) }
    ensures no_file { IsErrAnd result (IsRefused IsReading) → ⊥ }
{
    match open_frozen(alloc, bytes) {
        Ok(opened) => Ok(opened),
        Err(OpenFault::NoMemory) => Err(Failure::NoMemory),
        Err(fault) => Err(Failure::Refused(Refusal::BadFile(fault))),
    }
}

/// The plan of a definition that binds to an opened file. The file's value is then one of the definition's
/// root.
pub fn bind(alloc: Global, def: &Definition, opened: &Opened<'_>) -> Result<Plan, Failure>
    ensures gives { StageGives (λ plan. value_under (definition_of def.now) opened.now)
        (BindStage (definition_of def.now) (file_held opened.now)) result }
    ensures bound { IfOk result (λ plan.
        IsBound (layout_of opened.now.layouts) (root_of (definition_of def.now)) (Ok plan)) }
    ensures no_file { IsErrAnd result (IsRefused IsReading) → ⊥ }
{
    match bind_definition(alloc, def, opened) {
        Ok(plan) => Ok(plan),
        Err(BindFault::TypeChanged(ids)) => {
            Err(Failure::Refused(Refusal::TypeChanged(ids_text(alloc, &ids)?)))
        }
        Err(BindFault::RequiredAbsent(ids)) => {
            Err(Failure::Refused(Refusal::RequiredAbsent(ids_text(alloc, &ids)?)))
        }
        Err(BindFault::NoMemory) => Err(Failure::NoMemory),
    }
}

/// The path that a text is.
pub fn path(alloc: Global, text: &str) -> Result<Path, Failure>
    ensures gives { StageGives path_of (PathStage text.now) result }
    ensures no_file { IsErrAnd result (IsRefused IsReading) → ⊥ }
{
    match parse_path(alloc, text) {
        Ok(path) => Ok(path),
        Err(PathFault::NoMemory) => Err(Failure::NoMemory),
        Err(fault) => Err(Failure::Refused(Refusal::BadPath(fault))),
    }
}

/// The type to which a path leads under a definition.
pub fn fitted<'a>(
    def: &'a Definition,
    path: &Path,
    showing: Showing,
) -> Result<TypeRef<'a>, Failure>
    ensures gives { StageGives type_of_ref
        (FitStage showing (definition_of def.now) (path_of path.now)) result }
    ensures no_file { IsErrAnd result (IsRefused IsReading) → ⊥ }
{
    let answer = match showing {
        Showing::Whole => fit(def, path),
        Showing::Items => fit_scan(def, path),
    };
    match answer {
        Ok(ty) => Ok(ty),
        Err(fault) => Err(Failure::Refused(Refusal::BadPath(fault))),
    }
}

// Looks a path up with a counter of its own.
fn lookup_alone<'a, L: Ledger>(blank: Blank, from: Lens<'a>, path: &Path) -> Option<Lens<'a>>
    requires name { blank.name ≡ L.name }
    requires parts { blank.parts ≡ L.parts }
    requires fits { IsOk (fitted_to (type_of_lens from) (path_of path.now)) }
    ensures part { option_map value_of_lens result
        ≡ at (path_of path.now).steps (type_of_lens from.entry) (value_of_lens from.entry) }
    ensures typed { IfSome result (λ l.
        fitted_to (type_of_lens from.entry) (path_of path.now) ≡ Ok (type_of_lens l)) }
{
    let mut steps = Steps::<L>::new(blank);
    lookup(from, path, &mut steps)
}

/// The part of a value at a path that fits its definition.
pub fn part<'a>(def: &Definition, root: Lens<'a>, path: &Path) -> Result<Lens<'a>, Failure>
    requires root { type_of_lens root ≡ root_of (definition_of def.now) }
    requires fits { IsOk (fitted_to (type_of_lens root) (path_of path.now)) }
    ensures gives { StageGives value_of_lens
        (PartStage (definition_of def.now) (path_of path.now) (value_of_lens root.entry)) result }
    ensures typed { IfOk result (λ l.
        fitted_to (type_of_lens root.entry) (path_of path.now) ≡ Ok (type_of_lens l)) }
    ensures no_file { IsErrAnd result (IsRefused IsReading) → ⊥ }
{
    match lookup_alone::<Brand>(Blank::new(1), root, path) {
        Some(part) => Ok(part),
        None => Err(Failure::Refused(Refusal::Absent)),
    }
}

/// Passes on a value within the limit of cells, and refuses a greater one.
pub fn within(part: Lens<'_>) -> Result<Lens<'_>, Failure>
    ensures gives { StageGives value_of_lens
        (CellsStage (type_of_lens part.entry) (value_of_lens part.entry)) result }
    ensures same { IfOk result (λ l. l ≡ part.entry) }
    ensures no_file { IsErrAnd result (IsRefused IsReading) → ⊥ }
{
    let cells = lens_cells(part);
    if cells > CELL_LIMIT {
        Err(Failure::Refused(Refusal::TooManyCells(cells)))
    } else {
        Ok(part)
    }
}

/// A value as JSON, on one line or each of its items on its own.
pub fn shown(alloc: Global, showing: Showing, part: Lens<'_>) -> Result<Vec<u8>, Failure>
    requires { showing ≡ Showing.Items → IsItems (value_of_lens part) }
    ensures gives { StageGives (λ out. out.items)
        (Writes (shown_text showing (type_of_lens part.entry) (value_of_lens part.entry))) result }
    ensures no_file { IsErrAnd result (IsRefused IsReading) → ⊥ }
{
    let text = match showing {
        Showing::Whole => json_line(alloc, part)?,
        Showing::Items => item_lines(alloc, part)?,
    };
    Ok(text.into_bytes())
}

/// A value in its canonical spelling, within the limit of cells.
pub fn thawed(alloc: Global, root: Lens<'_>) -> Result<Vec<u8>, Failure>
    ensures gives { StageGives (λ out. out.items)
        (Thaws (type_of_lens root.entry) (value_of_lens root.entry)) result }
    ensures no_file { IsErrAnd result (IsRefused IsReading) → ⊥ }
{
    match thaw(alloc, root) {
        Ok(spelling) => Ok(spelling),
        Err(ThawFault::TooManyCells(cells)) => Err(Failure::Refused(Refusal::TooManyCells(cells))),
        Err(ThawFault::NoMemory) => Err(Failure::NoMemory),
    }
}

/// The line with the cells of a value, and the bytes of a content.
pub fn checked(alloc: Global, root: Lens<'_>, content: &[u8]) -> Result<Vec<u8>, Failure>
    ensures gives { StageGives (λ out. out.items)
        (Writes (check_line (capped (cells (kinds_of (type_of_lens root.entry)) (value_of_lens root.entry)))
        (length content.now))) result }
    ensures no_file { IsErrAnd result (IsRefused IsReading) → ⊥ }
{
    let cells = lens_cells(root);
    let bytes = content.len();
    Ok(format!(in alloc; "ok cells={cells} content={bytes}\n")?.into_bytes())
}

/// The listing of the layout of an opened file.
pub fn listed(alloc: Global, opened: &Opened<'_>) -> Result<Vec<u8>, Failure>
    ensures gives { StageGives (λ out. out.items) (Writes (listing (layout_of opened.now.layouts))) result }
    ensures no_file { IsErrAnd result (IsRefused IsReading) → ⊥ }
{
    Ok(layout_text(alloc, &opened.layouts)?.into_bytes())
}
