//! What is written of what every accepted file has, in the form that is asked for.

ghost use Rattle.std.specs.Prelude.{◌≡◌, ◌++◌, [], flat_map, IfOk, OnOk};
ghost use Rattle.ctd_lint_report.specs.calls.Guarantees.{all_lines, group_entry, group_title, guarantee_entry, guarantee_object, guarantees_entry, guarantees_title, headed_lines, indent_text, indented_line, is_part, line_object, opening_text, part_entry, relation_array, relation_arrays, relations_member, spot_text, turns_text};

use crate::json::{write_head, write_member, write_string};
use crate::line::{line_text, sign_text};
use crate::part::line_relations;
use crate::relation::Relation;
use crate::setup::Form;
use crate::text::write_number;
use ctd_guarantees::{Guarantee, GuaranteeGroup};
use ctd_token::Place;
use std::alloc::{AllocError, Global};

/// Appends a line behind an indent, if it says anything.
fn write_indented(indent: &str, said: &[u8], text: &mut Vec<u8>) -> Result<(), AllocError>
    ensures { OnOk result (text.new.items ≡ text.old.items ++ indented_line indent.now said.now) }
{
    if said.is_empty() {
        return Ok(());
    }
    text.extend_from_slice(indent.as_bytes())?;
    text.extend_from_slice(said)?;
    text.extend_from_slice(b"\n")
}

/// Appends a relation, as JSON.
fn write_relation_array(relation: &Relation, text: &mut Vec<u8>) -> Result<(), AllocError>
    ensures { OnOk result (text.new.items ≡ text.old.items ++ relation_array relation.now) }
{
    text.extend_from_slice(b"[")?;
    write_string(relation.left.as_slice(), text)?;
    text.extend_from_slice(b",")?;
    write_string(sign_text(relation.sign).as_bytes(), text)?;
    text.extend_from_slice(b",")?;
    write_string(relation.right.as_slice(), text)?;
    text.extend_from_slice(b"]")
}

/// Appends relations, as JSON, with commas between them.
fn write_relation_arrays(relations: &[Relation], text: &mut Vec<u8>) -> Result<(), AllocError>
    ensures { OnOk result (text.new.items ≡ text.old.items ++ relation_arrays [] relations.now) }
{
    let mut comma: &[u8] = b"";
    for relation in relations {
        text.extend_from_slice(comma)?;
        write_relation_array(relation, text)?;
        comma = b",";
    }
    Ok(())
}

/// Appends the member for relations.
fn write_relations_member(relations: &[Relation], text: &mut Vec<u8>) -> Result<(), AllocError>
    ensures { OnOk result (text.new.items ≡ text.old.items ++ relations_member relations.now) }
{
    text.extend_from_slice(b",\"relations\":[")?;
    write_relation_arrays(relations, text)?;
    text.extend_from_slice(b"]")
}

/// Appends the first members of the object of a line.
fn write_opening(
    file: &[u8],
    place: Option<Place>,
    said: &[u8],
    text: &mut Vec<u8>,
) -> Result<(), AllocError>
    ensures { OnOk result (text.new.items ≡ text.old.items ++ opening_text file.now place said.now) }
{
    write_head(file, place, text)?;
    write_member("rank", b"guarantee", text)?;
    write_member("text", said, text)
}

/// Appends the object of a line.
fn write_object(
    file: &[u8],
    place: Option<Place>,
    relations: &[Relation],
    said: &[u8],
    text: &mut Vec<u8>,
) -> Result<(), AllocError>
    ensures { OnOk result (text.new.items ≡ text.old.items ++ guarantee_object file.now place relations.now said.now) }
{
    write_opening(file, place, said, text)?;
    write_relations_member(relations, text)?;
    text.extend_from_slice(b"}\n")
}

/// Appends the object of a line, if it says anything.
fn write_line_object(
    file: &[u8],
    place: Option<Place>,
    relations: &[Relation],
    said: &[u8],
    text: &mut Vec<u8>,
) -> Result<(), AllocError>
    ensures { OnOk result (text.new.items ≡ text.old.items ++ line_object file.now place relations.now said.now) }
{
    if said.is_empty() {
        return Ok(());
    }
    write_object(file, place, relations, said, text)
}

/// How far lines stand from the left.
fn indent_text(place: Option<Place>) -> &'static str
    ensures { result.now ≡ indent_text place }
{
    match place {
        None => "  ",
        Some(_) => "    ",
    }
}

/// Appends what is written of a line.
fn write_guarantee(
    alloc: Global,
    form: Form,
    file: &[u8],
    names: &[&[u8]],
    place: Option<Place>,
    line: &Guarantee,
    text: &mut Vec<u8>,
) -> Result<(), AllocError>
    ensures { OnOk result (text.new.items ≡ text.old.items ++ guarantee_entry form file.now names.now place line.now) }
{
    let parts = line.parts.as_slice();
    let said = line_text(alloc, names, parts)?;
    match form {
        Form::Text => write_indented(indent_text(place), said.as_slice(), text),
        Form::Json => {
            let relations = line_relations(alloc, form, names, parts)?;
            write_line_object(file, place, relations.as_slice(), said.as_slice(), text)
        }
    }
}

/// Appends a place.
fn write_spot(place: Place, text: &mut Vec<u8>) -> Result<(), AllocError>
    ensures { OnOk result (text.new.items ≡ text.old.items ++ spot_text place) }
{
    write_number(place.line, text)?;
    text.extend_from_slice(b":")?;
    write_number(place.column, text)
}

/// Appends where lines are so that have a place.
fn write_turns(place: Place, text: &mut Vec<u8>) -> Result<(), AllocError>
    ensures { OnOk result (text.new.items ≡ text.old.items ++ turns_text place) }
{
    text.extend_from_slice(b"  at the end of each turn of ")?;
    write_spot(place, text)?;
    text.extend_from_slice(b"\n")
}

/// What stands above the lines of a place.
fn group_title(alloc: Global, form: Form, place: Option<Place>) -> Result<Vec<u8>, AllocError>
    ensures { IfOk result (λ title. title.items ≡ group_title form place) }
{
    let mut title = Vec::new(alloc);
    if let (Form::Text, Some(place)) = (form, place) {
        write_turns(place, &mut title)?;
    }
    Ok(title)
}

/// Appends lines with a title above, if there are any.
fn write_headed(title: &[u8], lines: &[u8], text: &mut Vec<u8>) -> Result<(), AllocError>
    ensures { OnOk result (text.new.items ≡ text.old.items ++ headed_lines title.now lines.now) }
{
    if lines.is_empty() {
        return Ok(());
    }
    text.extend_from_slice(title)?;
    text.extend_from_slice(lines)
}

/// What is written of some lines.
fn lines_of(
    alloc: Global,
    form: Form,
    file: &[u8],
    names: &[&[u8]],
    place: Option<Place>,
    lines: &[Guarantee],
) -> Result<Vec<u8>, AllocError>
    ensures { IfOk result (λ text. text.items ≡ flat_map (guarantee_entry form file.now names.now place) lines.now) }
{
    let mut text = Vec::new(alloc);
    for line in lines {
        write_guarantee(alloc, form, file, names, place, line, &mut text)?;
    }
    Ok(text)
}

/// Appends what is written of the lines of a place.
fn write_group(
    alloc: Global,
    form: Form,
    file: &[u8],
    names: &[&[u8]],
    group: &GuaranteeGroup,
    text: &mut Vec<u8>,
) -> Result<(), AllocError>
    ensures { OnOk result (text.new.items ≡ text.old.items ++ group_entry form file.now names.now group.now) }
{
    let title = group_title(alloc, form, group.place)?;
    let lines = lines_of(
        alloc,
        form,
        file,
        names,
        group.place,
        group.lines.as_slice(),
    )?;
    write_headed(title.as_slice(), lines.as_slice(), text)
}

/// Whether lines are those of the end of a file, or whether they are those of places.
fn is_part(in_end: bool, place: Option<Place>) -> bool
    ensures { result ≡ is_part in_end place }
{
    match (in_end, place) {
        (true, None) | (false, Some(_)) => true,
        (true, Some(_)) | (false, None) => false,
    }
}

/// Appends what is written of the lines of the end, or of those of places.
fn write_part(
    alloc: Global,
    form: Form,
    file: &[u8],
    names: &[&[u8]],
    in_end: bool,
    groups: &[GuaranteeGroup],
    text: &mut Vec<u8>,
) -> Result<(), AllocError>
    ensures { OnOk result (text.new.items ≡ text.old.items ++ flat_map (part_entry form file.now names.now in_end) groups.now) }
{
    for group in groups {
        if is_part(in_end, group.place) {
            write_group(alloc, form, file, names, group, text)?;
        }
    }
    Ok(())
}

/// What stands above all.
fn guarantees_title(alloc: Global, form: Form, file: &[u8]) -> Result<Vec<u8>, AllocError>
    ensures { IfOk result (λ title. title.items ≡ guarantees_title form file.now) }
{
    let mut title = Vec::new(alloc);
    match form {
        Form::Text => {
            title.extend_from_slice(file)?;
            title.extend_from_slice(b": every file that fits has\n")?;
            Ok(title)
        }
        Form::Json => Ok(title),
    }
}

/// The lines of what every accepted file has: those of the end, and then those of places.
fn all_lines(
    alloc: Global,
    form: Form,
    file: &[u8],
    names: &[&[u8]],
    groups: &[GuaranteeGroup],
) -> Result<Vec<u8>, AllocError>
    ensures { IfOk result (λ text. text.items ≡ all_lines form file.now names.now groups.now) }
{
    let mut text = Vec::new(alloc);
    write_part(alloc, form, file, names, true, groups, &mut text)?;
    write_part(alloc, form, file, names, false, groups, &mut text)?;
    Ok(text)
}

/// Appends what is written of what every accepted file has.
pub(crate) fn write_guarantees(
    alloc: Global,
    form: Form,
    file: &[u8],
    names: &[&[u8]],
    groups: &[GuaranteeGroup],
    text: &mut Vec<u8>,
) -> Result<(), AllocError>
    ensures { OnOk result (text.new.items ≡ text.old.items ++ guarantees_entry form file.now names.now groups.now) }
{
    let title = guarantees_title(alloc, form, file)?;
    let lines = all_lines(alloc, form, file, names, groups)?;
    write_headed(title.as_slice(), lines.as_slice(), text)
}
