// Blocks, judged content by content.
ghost use Rattle.mc_def_read.specs.Judging.{number_in, holds, contents, placed, holders, block_of, Finds};
ghost use Rattle.mc_c_syntax.specs.Ast.Names.{is_same};
ghost use Rattle.mc_def_read.specs.Fields.{fields_of};
ghost use Rattle.mc_def_read.specs.Scopes.{scope_of, held_of};
ghost use Rattle.std.specs.Prelude.{◌≡◌, ◌++◌, ◌≤◌, [], None, IfOk, is_some, slice_get, length, map, position, replicate};

use crate::kept::Scope;
use crate::scope::{at, is_blank};
use crate::words::{FEW, Words};
use mc_base::text::Text;
use mc_c_syntax::names::Names;
use mc_def_parse::{Block, Cause, Content, DefFault, Refusal};
use mc_flow::defs::{FieldInfo, StructInfo};
use std::alloc::{AllocError, Global};

/// What a block says up to a content: the names of the rule, and for each field which content names it.
#[derive(Drop)]
pub struct Held<'a, 'b> {
    pub front: &'b Words<'a>,
    pub own: Words<'a>,
    pub fields: Vec<Option<usize>>,
}

/// The names of a struct's fields: few, or found by hash.
#[derive(Drop)]
pub enum Fields<'f> {
    Few(&'f [FieldInfo]),
    Many(Names<'f>),
}

fn place_among(fields: &[FieldInfo], name: &Text) -> Option<usize>
    ensures { result ≡ position (λ field. is_same field.name name.now) fields.now }
{
    fields
        .iter()
        .position(|field| field.name.as_slice() == name.as_slice())
}

impl Fields<'_> {
    // The place of a field, from 0 on.
    fn place(&self, name: &Text) -> Option<usize>
        ensures { result ≡ position (λ field. is_same field name.now) (fields_of self.now) }
    {
        match self {
            Fields::Few(fields) => place_among(fields, name),
            Fields::Many(names) => names.place(name),
        }
    }
}

// Whether a name, which is not `_`, is introduced.
fn is_taken(front: &Words, own: &Words, name: &Text) -> bool
    ensures { result ≡ is_some (number_in (front.now ++ own.now) name.now) }
{
    if is_blank(name) {
        return false;
    }
    match front.place(name) {
        Some(_) => true,
        None => match own.place(name) {
            Some(_) => true,
            None => false,
        },
    }
}

// Which content names the field of this number.
fn holder(fields: &[Option<usize>], place: usize) -> Option<Option<usize>>
    ensures { result ≡ slice_get fields.now place }
{
    fields.get(place).copied()
}

fn at_end(block: &Block) -> DefFault
    ensures { result ≡ DefFault.Refused (record { cause = Cause.MissingField; place = block.now.end }) }
{
    DefFault::Refused(Refusal {
        cause: Cause::MissingField,
        place: block.end,
    })
}

impl<'a, 'b> Held<'a, 'b> {
    // A block of a struct, before its contents.
    fn new(
        alloc: Global,
        front: &'b Words<'a>,
        info: &StructInfo,
    ) -> Result<Held<'a, 'b>, AllocError>
        ensures { IfOk result (λ held. held_of held
            ≡ record { names = front.now ++ []; fields = replicate (length info.now.fields) None }) }
    {
        let own = Words::new(alloc);
        let fields = vec![in alloc; None; info.fields.as_slice().len()]?;
        Ok(Held { front, own, fields })
    }

    fn hold(
        &mut self,
        alloc: Global,
        names: &Fields,
        number: usize,
        content: &'a Content,
    ) -> Result<(), DefFault>
        ensures { Finds (holds (fields_of names.now) (held_of self.old) number content.now) (λ done. held_of self.new) result }
    {
        let Some(place) = names.place(&content.field.text) else {
            return Err(DefFault::Refused(at(Cause::UnknownName, &content.field)));
        };
        match holder(self.fields.as_slice(), place) {
            None => return Err(DefFault::Refused(at(Cause::UnknownName, &content.field))),
            Some(Some(_)) => return Err(DefFault::Refused(at(Cause::Twice, &content.field))),
            Some(None) => {}
        }
        if is_taken(self.front, &self.own, &content.name.text) {
            return Err(DefFault::Refused(at(Cause::Twice, &content.name)));
        }
        self.own.push(alloc, &content.name.text)?;
        self.fields[place] = Some(number);
        Ok(())
    }

    fn hold_all(
        &mut self,
        alloc: Global,
        names: &Fields,
        list: &'a [Content],
    ) -> Result<(), DefFault>
        ensures { Finds (contents (fields_of names.now) (held_of self.old) 0 list.now) (λ done. held_of self.new) result }
    {
        for (number, content) in list.iter().enumerate() {
            self.hold(alloc, names, number, content)?;
        }
        Ok(())
    }
}

// The names of a struct's fields.
fn texts_of(alloc: Global, fields: &[FieldInfo]) -> Result<Vec<Text>, AllocError>
    ensures { IfOk result (λ texts. texts.items ≡ map (λ field. field.name) fields.now) }
{
    let mut texts = Vec::new(alloc);
    for field in fields {
        texts.push(Text::of(alloc, field.name.as_slice())?)?;
    }
    Ok(texts)
}

/// Names by their places.
pub fn names_of(alloc: Global, texts: &[Text]) -> Result<Names<'_>, AllocError>
    ensures { IfOk result (λ names. names ≡ texts.now) }
{
    let mut names = Names::new(alloc);
    for text in texts {
        names.push(text)?;
    }
    Ok(names)
}

impl<'a, 'b> Scope<'a, 'b> {
    // The names that the fields of a struct hold, in the struct's order.
    fn place_all(
        &mut self,
        alloc: Global,
        block: &'a Block,
        fields: &[FieldInfo],
        held: &[Option<usize>],
    ) -> Result<(), DefFault>
        ensures { Finds (placed block.now (scope_of self.old) fields.now held.now) (λ done. scope_of self.new) result }
    {
        for (i, field) in fields.iter().enumerate() {
            let number = match holder(held, i) {
                Some(Some(number)) => number,
                Some(None) => return Err(at_end(block)),
                None => return Err(at_end(block)),
            };
            let content = match block.contents.get(number) {
                Some(content) => content,
                None => return Err(at_end(block)),
            };
            self.push(alloc, field.kind, &content.name.text)?;
        }
        Ok(())
    }

    // For each field of these names, which content of a block names it.
    fn holders_by(
        &self,
        alloc: Global,
        names: &Fields,
        info: &StructInfo,
        block: &'a Block,
    ) -> Result<Vec<Option<usize>>, DefFault>
        requires own { self.now.own ≡ [] }
        requires names { fields_of names.now ≡ map (λ field. field.name) info.now.fields }
        ensures { Finds (holders (scope_of self.now) info.now block.now) (λ fields. fields.items) result }
    {
        let mut held = Held::new(alloc, self.front, info)?;
        held.hold_all(alloc, names, block.contents.as_slice())?;
        let Held { fields, .. } = held;
        Ok(fields)
    }

    // For each field of a struct, which content of a block names it.
    fn holders(
        &self,
        alloc: Global,
        info: &StructInfo,
        block: &'a Block,
    ) -> Result<Vec<Option<usize>>, DefFault>
        requires { self.now.own ≡ [] }
        ensures { Finds (holders (scope_of self.now) info.now block.now) (λ fields. fields.items) result }
    {
        let fields = info.fields.as_slice();
        if fields.len() <= FEW {
            return self.holders_by(alloc, &Fields::Few(fields), info, block);
        }
        let texts = texts_of(alloc, fields)?;
        let names = Fields::Many(names_of(alloc, &texts)?);
        self.holders_by(alloc, &names, info, block)
    }

    /// The names of a block of this struct.
    pub fn block(
        &mut self,
        alloc: Global,
        info: &StructInfo,
        block: &'a Block,
    ) -> Result<(), DefFault>
        requires { self.old.own ≡ [] }
        ensures { Finds (block_of (scope_of self.old) info.now block.now) (λ done. scope_of self.new) result }
    {
        let held = self.holders(alloc, info, block)?;
        self.place_all(alloc, block, info.fields.as_slice(), &held)
    }
}
