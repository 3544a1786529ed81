// What a command answers, stage after stage, before anything is written.
ghost use Rattle.std.specs.Prelude.{◌≡◌, ◌≤◌, ◌<◌, ◌^◌, Ok, IfOk, IsErrAnd, length, map, string_bytes};
ghost use Rattle.idl_profile.specs.Types.{root_of};
ghost use Rattle.idl_parse.specs.Parsed.{definition_of};
ghost use Rattle.idl_parse.specs.Refs.{type_of_ref};
ghost use Rattle.frozen_model.specs.Values.{Of, cells, cell_limit};
ghost use Rattle.frozen_laws.specs.Laws.{IsContent};
ghost use Rattle.layout_tree.specs.Nodes.{layout_of};
ghost use Rattle.type_kinds.specs.KindsOf.{kinds_of};
ghost use Rattle.type_kinds.specs.Accepted.{HasShortTexts};
ghost use Rattle.typed_tree.specs.References.{value_of_tree};
ghost use Rattle.typed_tree.specs.Parts.{IsItems};
ghost use Rattle.path_text.specs.Views.{path_of};
ghost use Rattle.evolve.specs.Lenses.{value_of_lens, type_of_lens};
ghost use Rattle.frozen_cli.specs.Opened.{value_held, file_held};
ghost use Rattle.frozen_cli.specs.Refusal.{IsRefused, IsReading};
ghost use Rattle.frozen_cli.specs.Stages.{StageGives, HeldStageGives};
ghost use Rattle.frozen_cli.specs.Changes.{seen, ReadsFiles};
ghost use Rattle.frozen_cli.specs.Reply.{DefinitionIn, ValueIn, FrozenUnder, FreezeGives};
ghost use Rattle.frozen_cli.specs.Reply.{leads_to, ShowsValue, ShowsAt, ShowsPart, Under, OpenedUnder};
ghost use Rattle.frozen_cli.specs.Reply.{FileUnder, WantedIn, ShowGives, ListingOf, LayoutGives};
ghost use Rattle.frozen_cli.specs.Reply.{UpgradeOf, UpgradeGives, PrintGives};
ghost use Rattle.frozen_cli.specs.Reply.{CommandGives};
ghost use Rattle.frozen_cli.specs.Words.{wanted_in};

use crate::refusal::{Failure, Role};
use crate::stages::{self, read_role};
use crate::wanted::Want;
use crate::words::{Command, Showing, parse_words};
use evolve::{Lens, root_lens};
use file_check::Opened;
use fz_base::Files;
use path_text::Path;
use std::alloc::Global;
use thrift_idl::{Definition, TypeRef};
use typed_tree::Tree;

/// The most bytes of a definition text.
const MAX_DEFINITION: u64 = 1 << 20;

/// The most bytes of a value in Compact Protocol.
const MAX_VALUE: u64 = 1 << 26;

/// The most bytes of a frozen file.
const MAX_FILE: u64 = 1 << 30;

/// The definition in a named file.
fn definition_in<F: Files>(alloc: Global, files: &mut F, name: &str) -> Result<Definition, Failure>
    ensures short { IfOk result (λ d. HasShortTexts (root_of (definition_of d))) }
    ensures gives { HeldStageGives (F.held files.old) definition_of
        (λ held. DefinitionIn (held name.now)) result }
    ensures reads { ReadsFiles (seen F.held F.misses F.faults files.old files.new) result }
{
    let text = read_role(alloc, files, Role::Definition, name, MAX_DEFINITION)?;
    stages::definition(alloc, &text)
}

/// The value in a named file.
fn value_in<F: Files>(
    alloc: Global,
    files: &mut F,
    def: &Definition,
    name: &str,
) -> Result<Tree, Failure>
    ensures kinds { IfOk result (λ tree.
        Of (kinds_of (root_of (definition_of def.now))) (value_of_tree tree)) }
    ensures few { IfOk result (λ tree.
        cells (kinds_of (root_of (definition_of def.now))) (value_of_tree tree) ≤ cell_limit) }
    ensures gives { HeldStageGives (F.held files.old) value_of_tree
        (λ held. ValueIn (definition_of def.now) (held name.now)) result }
    ensures reads { ReadsFiles (seen F.held F.misses F.faults files.old files.new) result }
{
    let bytes = read_role(alloc, files, Role::Value, name, MAX_VALUE)?;
    stages::value(alloc, def, &bytes)
}

/// The frozen file of the value in a named file, under a definition.
fn frozen_under<F: Files>(
    alloc: Global,
    files: &mut F,
    value: &str,
    def: &Definition,
) -> Result<Vec<u8>, Failure>
    ensures gives { HeldStageGives (F.held files.old) (λ out. out.items)
        (λ held. FrozenUnder held value.now (definition_of def.now)) result }
    ensures reads { ReadsFiles (seen F.held F.misses F.faults files.old files.new) result }
{
    let value = value_in(alloc, files, def, value)?;
    stages::freeze_value(alloc, def, &value)
}

/// The frozen file of a value under a definition, both in named files.
fn freeze<F: Files>(
    alloc: Global,
    files: &mut F,
    def: &str,
    value: &str,
) -> Result<Vec<u8>, Failure>
    ensures gives { HeldStageGives (F.held files.old) (λ out. out.items)
        (λ held. FreezeGives held def.now value.now) result }
    ensures reads { ReadsFiles (seen F.held F.misses F.faults files.old files.new) result }
{
    let def = definition_in(alloc, files, def)?;
    frozen_under(alloc, files, value, &def)
}

/// The text of a value within the limit of cells.
fn shown_value(alloc: Global, showing: Showing, part: Lens<'_>) -> Result<Vec<u8>, Failure>
    requires { showing ≡ Showing.Items → IsItems (value_of_lens part) }
    ensures gives { StageGives (λ out. out.items)
        (ShowsValue showing (type_of_lens part.entry) (value_of_lens part.entry)) result }
    ensures no_file { IsErrAnd result (IsRefused IsReading) → ⊥ }
{
    let part = stages::within(part)?;
    stages::shown(alloc, showing, part)
}

/// The text of the part at a path that leads to a type.
fn shown_part(
    alloc: Global,
    showing: Showing,
    def: &Definition,
    root: Lens<'_>,
    path: &Path,
    ty: TypeRef<'_>,
) -> Result<Vec<u8>, Failure>
    requires root { type_of_lens root ≡ root_of (definition_of def.now) }
    requires leads { leads_to showing (root_of (definition_of def.now)) (path_of path.now)
        ≡ Ok (type_of_ref ty) }
    ensures gives { StageGives (λ out. out.items)
        (ShowsAt showing (definition_of def.now) (path_of path.now) (value_of_lens root.entry)
        (type_of_ref ty.entry)) result }
    ensures no_file { IsErrAnd result (IsRefused IsReading) → ⊥ }
{
    let part = stages::part(def, root, path)?;
    shown_value(alloc, showing, part)
}

/// The text of the part of a value at a path.
fn shown_at(
    alloc: Global,
    showing: Showing,
    def: &Definition,
    root: Lens<'_>,
    path: &Path,
) -> Result<Vec<u8>, Failure>
    requires root { type_of_lens root ≡ root_of (definition_of def.now) }
    ensures gives { StageGives (λ out. out.items)
        (ShowsPart showing (definition_of def.now) (path_of path.now) (value_of_lens root.entry)) result }
    ensures no_file { IsErrAnd result (IsRefused IsReading) → ⊥ }
{
    let ty = stages::fitted(def, path, showing)?;
    shown_part(alloc, showing, def, root, path, ty)
}

/// What is wanted of an opened file under a definition.
fn wanted_opened(
    alloc: Global,
    want: Want<'_>,
    def: &Definition,
    opened: &Opened<'_>,
) -> Result<Vec<u8>, Failure>
    requires short { HasShortTexts (root_of (definition_of def.now)) }
    requires held { IsContent (layout_of opened.now.layouts).tree (value_held opened.now)
        opened.now.content.now }
    ensures gives { StageGives (λ out. out.items)
        (Under (wanted_in want.entry) (definition_of def.now) (file_held opened.now)) result }
    ensures no_file { IsErrAnd result (IsRefused IsReading) → ⊥ }
{
    let plan = stages::bind(alloc, def, opened)?;
    let root = root_lens(def, opened, &plan);
    match want {
        Want::Part(showing, path) => shown_at(alloc, showing, def, root, path),
        Want::Whole => stages::thawed(alloc, root),
        Want::Sizes => stages::checked(alloc, root, opened.content),
    }
}

/// What is wanted of the bytes of a frozen file under a definition.
fn wanted_of(
    alloc: Global,
    want: Want<'_>,
    def: &Definition,
    bytes: &[u8],
) -> Result<Vec<u8>, Failure>
    requires bytes { length bytes.now < 2 ^ 56 }
    requires short { HasShortTexts (root_of (definition_of def.now)) }
    ensures gives { StageGives (λ out. out.items)
        (OpenedUnder (wanted_in want.entry) (definition_of def.now) bytes.now) result }
    ensures no_file { IsErrAnd result (IsRefused IsReading) → ⊥ }
{
    let opened = stages::file(alloc, bytes)?;
    wanted_opened(alloc, want, def, &opened)
}

/// What is wanted of a frozen file under a definition.
fn wanted_under<F: Files>(
    alloc: Global,
    files: &mut F,
    want: Want<'_>,
    def: &Definition,
    file: &str,
) -> Result<Vec<u8>, Failure>
    requires { HasShortTexts (root_of (definition_of def.now)) }
    ensures gives { HeldStageGives (F.held files.old) (λ out. out.items)
        (λ held. FileUnder (wanted_in want.entry) (definition_of def.now) (held file.now)) result }
    ensures reads { ReadsFiles (seen F.held F.misses F.faults files.old files.new) result }
{
    let bytes = read_role(alloc, files, Role::File, file, MAX_FILE)?;
    wanted_of(alloc, want, def, &bytes)
}

/// What is wanted of a frozen file under the definition in a named file.
fn wanted<F: Files>(
    alloc: Global,
    files: &mut F,
    want: Want<'_>,
    def: &str,
    file: &str,
) -> Result<Vec<u8>, Failure>
    ensures gives { HeldStageGives (F.held files.old) (λ out. out.items)
        (λ held. WantedIn (wanted_in want.entry) held def.now file.now) result }
    ensures reads { ReadsFiles (seen F.held F.misses F.faults files.old files.new) result }
{
    let def = definition_in(alloc, files, def)?;
    wanted_under(alloc, files, want, &def, file)
}

/// The text of the part of a frozen file at the path that a text is.
fn show<F: Files>(
    alloc: Global,
    files: &mut F,
    showing: Showing,
    def: &str,
    file: &str,
    path: &str,
) -> Result<Vec<u8>, Failure>
    ensures gives { HeldStageGives (F.held files.old) (λ out. out.items)
        (λ held. ShowGives showing held def.now file.now path.now) result }
    ensures reads { ReadsFiles (seen F.held F.misses F.faults files.old files.new) result }
{
    let path = stages::path(alloc, path)?;
    wanted(alloc, files, Want::Part(showing, &path), def, file)
}

/// The listing of the layout of a frozen file, from the file's bytes.
fn listing_of(alloc: Global, bytes: &[u8]) -> Result<Vec<u8>, Failure>
    requires { length bytes.now < 2 ^ 56 }
    ensures gives { StageGives (λ out. out.items) (ListingOf bytes.now) result }
    ensures no_file { IsErrAnd result (IsRefused IsReading) → ⊥ }
{
    let opened = stages::file(alloc, bytes)?;
    stages::listed(alloc, &opened)
}

/// The listing of the layout of a frozen file.
fn layout<F: Files>(alloc: Global, files: &mut F, file: &str) -> Result<Vec<u8>, Failure>
    ensures gives { HeldStageGives (F.held files.old) (λ out. out.items)
        (λ held. LayoutGives held file.now) result }
    ensures reads { ReadsFiles (seen F.held F.misses F.faults files.old files.new) result }
{
    let bytes = read_role(alloc, files, Role::File, file, MAX_FILE)?;
    listing_of(alloc, &bytes)
}

/// The file of the value of a frozen file, from the file's bytes, in its least layout of version 2.
fn upgraded_of(alloc: Global, bytes: &[u8]) -> Result<Vec<u8>, Failure>
    requires { length bytes.now < 2 ^ 56 }
    ensures gives { StageGives (λ out. out.items) (UpgradeOf bytes.now) result }
    ensures no_file { IsErrAnd result (IsRefused IsReading) → ⊥ }
{
    let opened = stages::file(alloc, bytes)?;
    let value = stages::value_held(alloc, &opened)?;
    stages::refrozen(alloc, &opened, &value)
}

/// The file of the value of a frozen file in its least layout of version 2.
fn upgrade<F: Files>(alloc: Global, files: &mut F, file: &str) -> Result<Vec<u8>, Failure>
    ensures gives { HeldStageGives (F.held files.old) (λ out. out.items)
        (λ held. UpgradeGives held file.now) result }
    ensures reads { ReadsFiles (seen F.held F.misses F.faults files.old files.new) result }
{
    let bytes = read_role(alloc, files, Role::File, file, MAX_FILE)?;
    upgraded_of(alloc, &bytes)
}

/// The text of the definition in a named file.
fn print_definition<F: Files>(alloc: Global, files: &mut F, def: &str) -> Result<Vec<u8>, Failure>
    ensures gives { HeldStageGives (F.held files.old) (λ out. out.items)
        (λ held. PrintGives held def.now) result }
    ensures reads { ReadsFiles (seen F.held F.misses F.faults files.old files.new) result }
{
    let def = definition_in(alloc, files, def)?;
    stages::printed(alloc, &def)
}

/// What the words ask for, or why there is none.
pub fn answer<F: Files>(alloc: Global, words: &[String], files: &mut F) -> Result<Vec<u8>, Failure>
    ensures gives { HeldStageGives (F.held files.old) (λ out. out.items)
        (CommandGives (map string_bytes words.now)) result }
    ensures reads { ReadsFiles (seen F.held F.misses F.faults files.old files.new) result }
{
    match parse_words(words)? {
        Command::Freeze { def, value } => freeze(alloc, files, def, value),
        Command::Show {
            showing,
            def,
            file,
            path,
        } => show(alloc, files, showing, def, file, path),
        Command::Thaw { def, file } => wanted(alloc, files, Want::Whole, def, file),
        Command::Check { def, file } => wanted(alloc, files, Want::Sizes, def, file),
        Command::Layout { file } => layout(alloc, files, file),
        Command::Upgrade { file } => upgrade(alloc, files, file),
        Command::Demo { rows } => stages::demonstrated(alloc, rows),
        Command::Print { def } => print_definition(alloc, files, def),
    }
}
