//! Members of enums.

ghost use Rattle.std.specs.Prelude.{◌≡◌, map, List, ℕ, option_map, IfOk, IfErr, OnOk};
ghost use Rattle.base_lists.specs.Spans.{text_at as text_of_span};
ghost use Rattle.idl_tokens.specs.Spans.{toks, tok_of, spot_of};
ghost use Rattle.exact_reading.specs.declared.stop.ReadError.TheVariants as errors;
ghost use Rattle.idl_grammar.specs.Grammar.{first as first_of, loop as loop_of};
ghost use Rattle.exact_reading.specs.Reading.{Gives};
ghost use Rattle.idl_grammar.specs.Run.{run, outcome};
ghost use Rattle.idl_profile.specs.Judged.{a_member, no_members, next_number as next_number_of, is_mark as is_mark_of};
ghost use Rattle.idl_profile.specs.Text.{with_member, member, enum_body, enum_parts};
ghost use Rattle.idl_fields.specs.View.{member_of, turn_name, scope_of};
ghost use Rattle.idl_fields.specs.Indexed.{IsIndexed, IndexesMembers};
ghost use Rattle.idl_definitions.specs.Items.{members_of, choice_of};

use crate::headers::read_own_number;
use crate::items::Choice;
use base_lists::{Span, text_at};
use idl_fields::draft::{Member, Whole};
use idl_fields::{Scope, is_mark, new_name, none_left, read_end, read_mark, read_new_name, wrong};
use idl_grammar::{Fault, ReadError};
use idl_tokens::Placed;
use name_index::NameIndex;
use std::alloc::Global;

/// The members so far, the index of their names, and the number that counting gives the next one, if it is an i32.
#[derive(Debug, Drop)]
pub struct Members {
    found: Vec<Member>,
    names: NameIndex,
    coming: Option<Whole>,
}

impl Members {
    /// No members; the first one counts from 0.
    fn new(alloc: Global) -> Self
        ensures none { (text : List ℕ) → members_of text result ≡ no_members }
        ensures indexed { (text : List ℕ) → IndexesMembers text result.names result.found.items }
    {
        Members {
            found: Vec::new(alloc),
            names: NameIndex::new(alloc),
            coming: Some(Whole { value: 0 }),
        }
    }

    /// Adds a member at the end.
    fn add(&mut self, alloc: Global, text: &str, member: Member) -> Result<(), ReadError>
        ensures same { OnOk result (members_of text.now self.new ≡ with_member (members_of text.now self.old) (text_of_span text.now member.name) member.number.value) }
        ensures indexed { IndexesMembers text.now self.old.names self.old.found.items → OnOk result (IndexesMembers text.now self.new.names self.new.found.items) }
        ensures error { IfErr result (λ e. e ≡ errors.NoMemory) }
    {
        self.names.push(alloc, text_at(text, member.name))?;
        self.coming = next_number(member.number);
        self.found.push(member)?;
        Ok(())
    }
}

fn follows_equals(after: &[Placed]) -> bool
    ensures { (text : List ℕ) → result ≡ is_mark_of 61 (first_of (toks text after.now)) }
{
    match after.first() {
        Some(placed) => is_mark(b'=', placed.token),
        None => false,
    }
}

/// Whether another member begins here; the tokens after it are only looked at.
fn member_turn(
    text: &str,
    members: &Members,
    placed: &Placed,
    after: &[Placed],
) -> Result<Option<Span>, ReadError>
    requires { IndexesMembers text.now members.now.names members.now.found.items }
    ensures { Gives (turn_name text.now) result (outcome (a_member (members_of text.now members.now) (tok_of text.now placed.now.token) (first_of (toks text.now after.now))) (spot_of text.now placed.now)) }
{
    if is_mark(b'}', placed.token) {
        return Ok(None);
    }
    if is_mark(b'@', placed.token) {
        return Err(wrong(Fault::Unsupported, placed));
    }
    match new_name(text, &members.names, placed.token) {
        Err(fault) => Err(wrong(fault, placed)),
        Ok(name) => {
            if members.coming.is_some() || follows_equals(after) {
                Ok(Some(name))
            } else {
                Err(wrong(Fault::BadDefault, placed))
            }
        }
    }
}

// The number that counting gives the next member, if it is an i32.
fn next_number(z: Whole) -> Option<Whole>
    ensures { option_map (λ w. w.value) result ≡ next_number_of z.value }
{
    if z.value < 2147483647 {
        Some(Whole { value: z.value + 1 })
    } else {
        None
    }
}

// A member after its name: its number.
fn read_member<'a>(
    text: &str,
    members: &Members,
    name: Span,
    tokens: &'a [Placed],
) -> Result<(Whole, &'a [Placed]), ReadError>
    ensures { Gives (λ x. (with_member (members_of text.now members.now) (text_of_span text.now name) x.0.value, toks text.now x.1.now)) result (run (member (members_of text.now members.now) (text_of_span text.now name)) (toks text.now tokens.now)) }
{
    let (number, rest) = read_own_number(members.coming, tokens)?;
    let rest = read_end(text, rest)?;
    Ok((number, rest))
}

// The members of an enum.
fn read_members<'a>(
    alloc: Global,
    text: &str,
    tokens: &'a [Placed],
) -> Result<(Members, &'a [Placed]), ReadError>
    ensures reads { Gives (λ x. (members_of text.now x.0, toks text.now x.1.now)) result (run (loop_of a_member member no_members) (toks text.now tokens.now)) }
    ensures indexed { IfOk result (λ x. IndexesMembers text.now x.0.names x.0.found.items) }
{
    let mut members = Members::new(alloc);
    let mut rest = tokens;
    'members: loop {
        let Some((first, after)) = rest.split_first() else {
            return Err(none_left());
        };
        let Some(name) = member_turn(text, &members, first, after)? else {
            return Ok((members, rest));
        };
        let (number, after) = read_member(text, &members, name, after)?;
        members.add(alloc, text, Member { name, number })?;
        rest = after;
    }
}

// The members of an enum in their braces.
#[tactic(auto, unfolding(idl_profile::specs::Text::enum_body))]
fn read_enum_body<'a>(
    alloc: Global,
    text: &str,
    tokens: &'a [Placed],
) -> Result<(Members, &'a [Placed]), ReadError>
    ensures reads { Gives (λ x. (map (member_of text.now) x.0.found.items, toks text.now x.1.now)) result (run enum_body (toks text.now tokens.now)) }
    ensures indexed { IfOk result (λ x. IndexesMembers text.now x.0.names x.0.found.items) }
{
    let rest = read_mark(b'{', tokens)?;
    let (members, rest) = read_members(alloc, text, rest)?;
    let rest = read_mark(b'}', rest)?;
    Ok((members, rest))
}

/// An enum after its first word.
#[tactic(auto, unfolding(idl_profile::specs::Text::enum_parts))]
pub fn read_enum<'a>(
    alloc: Global,
    text: &str,
    scope: &Scope,
    tokens: &'a [Placed],
) -> Result<(Choice, &'a [Placed]), ReadError>
    requires { IsIndexed text.now scope.now }
    ensures reads { Gives (λ x. (choice_of text.now x.0, toks text.now x.1.now)) result (run (enum_parts (scope_of text.now scope.now)) (toks text.now tokens.now)) }
    ensures indexed { IfOk result (λ x. IndexesMembers text.now x.0.names x.0.members.items) }
{
    let (name, rest) = read_new_name(text, &scope.names, tokens)?;
    let (members, rest) = read_enum_body(alloc, text, rest)?;
    let rest = read_end(text, rest)?;
    let Members { found, names, .. } = members;
    Ok((
        Choice {
            name,
            members: found,
            names,
        },
        rest,
    ))
}
