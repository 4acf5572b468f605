// Files, judged in the order of the text.
ghost use Rattle.mc_def_read.specs.Judging.{kinds_of, parameters, rule, rules, bare_rule, block_rule, definition, definition_of, definitions, judged, this_alone, Finds};
ghost use Rattle.mc_def_read.specs.Scopes.{scope_of, setting_of};
ghost use Rattle.mc_flow.specs.Defs.Conditions.{numbers_from};
ghost use Rattle.std.specs.Prelude.{◌≡◌, ◌-◌, [], IfOk, codes, map};

use crate::body::{Body, Setting};
use crate::held::names_of;
use crate::kept::Scope;
use crate::scope::at;
use crate::words::Words;
use mc_base::text::Text;
use mc_base::{Items, Kind, StructId};
use mc_c_syntax::names::Names;
use mc_def_parse::{Block, Cause, DefFault, DefText, Item, Parameter, RuleText};
use mc_flow::defs::{Def, Rule, StructInfo};
use std::alloc::{AllocError, Global};

// The numbers from one on up to another.
fn numbers_between(alloc: Global, first: usize, last: usize) -> Result<Items<u64>, AllocError>
    ensures { IfOk result (λ numbers. numbers ≡ numbers_from first (last - first)) }
{
    let mut numbers = Items::new(alloc);
    for i in 0..last.saturating_sub(first) {
        numbers.push((first + i) as u64)?;
    }
    Ok(numbers)
}

// The scope of a rule, which begins with that of its definition.
fn inner<'a, 'b>(alloc: Global, front: &'b Scope<'a, '_>) -> Result<Scope<'a, 'b>, AllocError>
    requires { front.now.front.now ≡ [] }
    ensures same { IfOk result (λ scope. scope_of scope ≡ scope_of front.now) }
    ensures none { IfOk result (λ scope. scope.own ≡ []) }
{
    Ok(Scope {
        front: &front.own,
        own: Words::new(alloc),
        kinds: Vec::from_slice(alloc, front.kinds.as_slice())?,
    })
}

fn rule_of(body: Body, block: Option<StructId>, contents: Items<u64>) -> Rule
    ensures { result
        ≡ record
        { block = block; contents = contents; names = body.entry.scope.kinds.items; calls = body.entry.calls; atoms = body.entry.atoms } }
{
    let Body {
        scope,
        calls,
        atoms,
    } = body;
    let Scope { kinds, .. } = scope;
    Rule {
        block,
        contents,
        names: Items::of(kinds),
        calls,
        atoms,
    }
}

fn kinds_of(alloc: Global, params: &[Parameter]) -> Result<Items<Kind>, AllocError>
    ensures { IfOk result (λ kinds. kinds ≡ kinds_of params.now) }
{
    let mut kinds = Items::new(alloc);
    for param in params {
        kinds.push(param.kind)?;
    }
    Ok(kinds)
}

fn bytes_of(alloc: Global, text: &Text) -> Result<Items<u8>, AllocError>
    ensures { IfOk result (λ bytes. bytes ≡ text.now) }
{
    Ok(Items::of(Vec::from_slice(alloc, text.as_slice())?))
}

impl<'a, 's> Setting<'a, 's> {
    fn bare_rule(
        &self,
        alloc: Global,
        front: &Scope<'a, '_>,
        items: &'a [Item],
    ) -> Result<Rule, DefFault>
        requires { front.now.front.now ≡ [] }
        ensures { Finds (bare_rule (setting_of self.now) (scope_of front.now) items.now) (λ rule. rule) result }
    {
        let scope = inner(alloc, front)?;
        let mut body = Body::new(alloc, scope);
        body.items(alloc, self, false, items)?;
        Ok(rule_of(body, None, Items::new(alloc)))
    }

    fn block_rule(
        &self,
        alloc: Global,
        front: &Scope<'a, '_>,
        block: &'a Block,
        items: &'a [Item],
    ) -> Result<Rule, DefFault>
        requires { front.now.front.now ≡ [] }
        ensures { Finds (block_rule (setting_of self.now) (scope_of front.now) block.now items.now) (λ rule. rule) result }
    {
        let Some(shape) = self.shapes.place(&block.shape.text) else {
            return Err(DefFault::Refused(at(Cause::UnknownName, &block.shape)));
        };
        let Some(info) = self.structs.get(shape) else {
            return Err(DefFault::Refused(at(Cause::UnknownName, &block.shape)));
        };
        let mut scope = inner(alloc, front)?;
        scope.block(alloc, info, block)?;
        let contents = numbers_between(alloc, front.kinds.len(), scope.kinds.len())?;
        let mut body = Body::new(alloc, scope);
        body.items(alloc, self, true, items)?;
        Ok(rule_of(body, Some(StructId(shape as u64)), contents))
    }

    fn rule(
        &self,
        alloc: Global,
        front: &Scope<'a, '_>,
        text: &'a RuleText,
    ) -> Result<Rule, DefFault>
        requires { front.now.front.now ≡ [] }
        ensures { Finds (rule (setting_of self.now) (scope_of front.now) text.now) (λ rule. rule) result }
    {
        match &text.block {
            None => self.bare_rule(alloc, front, text.items.as_slice()),
            Some(block) => self.block_rule(alloc, front, block, text.items.as_slice()),
        }
    }

    fn rules(
        &self,
        alloc: Global,
        front: &Scope<'a, '_>,
        list: &'a [RuleText],
    ) -> Result<Items<Rule>, DefFault>
        requires { front.now.front.now ≡ [] }
        ensures { Finds (rules (setting_of self.now) (scope_of front.now) list.now) (λ rules. rules) result }
    {
        let mut rules = Items::new(alloc);
        for one in list {
            rules.push(self.rule(alloc, front, one)?)?;
        }
        Ok(rules)
    }

    fn definition_of(&self, alloc: Global, def: &'a DefText) -> Result<Def, DefFault>
        requires { self.now.this.now ≡ codes "this" }
        ensures { Finds (definition_of (setting_of self.now) def.now) (λ def. def) result }
    {
        let none = Words::new(alloc);
        let mut front = Scope {
            front: &none,
            own: Words::new(alloc),
            kinds: Vec::new(alloc),
        };
        front.push(alloc, Kind::Ptr, self.this)?;
        front.parameters(alloc, def.head.params.as_slice())?;
        let rules = self.rules(alloc, &front, def.rules.as_slice())?;
        Ok(Def {
            name: bytes_of(alloc, &def.head.name.text)?,
            params: kinds_of(alloc, def.head.params.as_slice())?,
            rules,
        })
    }

    fn definition(&self, alloc: Global, number: usize, def: &'a DefText) -> Result<Def, DefFault>
        requires { self.now.this.now ≡ codes "this" }
        ensures { Finds (definition (setting_of self.now) number def.now) (λ def. def) result }
    {
        if self.preds.place(&def.head.name.text) != Some(number) {
            return Err(DefFault::Refused(at(Cause::Twice, &def.head.name)));
        }
        self.definition_of(alloc, def)
    }

    fn definitions(&self, alloc: Global) -> Result<Items<Def>, DefFault>
        requires { self.now.this.now ≡ codes "this" }
        ensures { Finds (definitions (setting_of self.now) 0 self.now.file.now) (λ defs. defs) result }
    {
        let mut defs = Items::new(alloc);
        for (number, def) in self.file.iter().enumerate() {
            defs.push(self.definition(alloc, number, def)?)?;
        }
        Ok(defs)
    }
}

impl<'a, 'b> Scope<'a, 'b> {
    fn parameters(&mut self, alloc: Global, list: &'a [Parameter]) -> Result<(), DefFault>
        ensures same { self.new.front.now ≡ self.old.front.now }
        ensures found { Finds (parameters (scope_of self.old) list.now) (λ done. scope_of self.new) result }
    {
        for param in list {
            self.introduce(alloc, param.kind, &param.name)?;
        }
        Ok(())
    }
}

// The names of structs.
fn shape_texts(alloc: Global, structs: &[StructInfo]) -> Result<Vec<Text>, AllocError>
    ensures { IfOk result (λ texts. texts.items ≡ map (λ info. info.name) structs.now) }
{
    let mut texts = Vec::new(alloc);
    for info in structs {
        texts.push(Text::of(alloc, info.name.as_slice())?)?;
    }
    Ok(texts)
}

// The names of definitions, by their places.
fn pred_names<'a>(alloc: Global, file: &'a [DefText]) -> Result<Names<'a>, AllocError>
    ensures { IfOk result (λ names. names ≡ map (λ d. d.head.name.text) file.now) }
{
    let mut names = Names::new(alloc);
    for def in file {
        names.push(&def.head.name.text)?;
    }
    Ok(names)
}

/// What a file says of these structs.
pub fn judge(
    alloc: Global,
    structs: &[StructInfo],
    file: &[DefText],
) -> Result<Items<Def>, DefFault>
    ensures { Finds (judged structs.now file.now) (λ defs. defs) result }
{
    let texts = shape_texts(alloc, structs)?;
    let this = Text::of(alloc, b"this")?;
    let setting = Setting {
        structs,
        shapes: names_of(alloc, &texts)?,
        file,
        preds: pred_names(alloc, file)?,
        this: &this,
    };
    setting.definitions(alloc)
}
