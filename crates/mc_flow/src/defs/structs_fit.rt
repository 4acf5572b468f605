// Whether definitions fit given structs, and whether they fit any.
ghost use Rattle.std.specs.Prelude.{◌≡◌, ◌≢◌, ◌↔◌, [], IsTrue, Some, None, All, map, take, drop};
ghost use Rattle.mc_flow.specs.Defs.Conditions.{kinds_of, content_kinds, RuleFitsStructs, DefFits, DefsFit, Agree, RuleFitsAlone, DefFitsAlone, IsDefs};

use crate::defs::fits::{rule_fits, same_kinds};
use crate::defs::{Def, FieldInfo, Rule, StructInfo};
use mc_base::{Kind, StructId};

fn without_first(names: &[Kind], count: usize) -> &[Kind]
    ensures { result.now ≡ drop count names.now }
{
    if count < names.len() {
        &names[count..]
    } else {
        &[]
    }
}

fn first(names: &[Kind], count: usize) -> &[Kind]
    ensures { result.now ≡ take count names.now }
{
    if count < names.len() {
        &names[..count]
    } else {
        names
    }
}

fn content_kinds<'a>(params: &[Kind], rule: &'a Rule) -> &'a [Kind]
    ensures { result.now ≡ content_kinds params.now rule.now }
{
    let others = without_first(rule.names.as_slice(), params.len() + 1);
    first(others, rule.contents.len())
}

fn fields_have(fields: &[FieldInfo], kinds: &[Kind]) -> bool
    ensures { IsTrue result ↔ (map (λ field. field.kind) fields.now ≡ kinds.now) }
{
    if fields.len() != kinds.len() {
        return false;
    }
    for (i, field) in fields.iter().enumerate() {
        if field.kind != kinds[i] {
            return false;
        }
    }
    true
}

fn block_has(structs: &[StructInfo], block: Option<StructId>, kinds: &[Kind]) -> bool
    ensures { IsTrue result ↔ (kinds_of structs.now block ≡ Some kinds.now) }
{
    match block {
        None => kinds.is_empty(),
        Some(shape) => match structs.get(shape.0 as usize) {
            None => false,
            Some(info) => fields_have(info.fields.as_slice(), kinds),
        },
    }
}

fn rule_fits_structs(structs: &[StructInfo], defs: &[Def], params: &[Kind], rule: &Rule) -> bool
    ensures { IsTrue result ↔ RuleFitsStructs structs.now defs.now params.now rule.now }
{
    rule_fits(defs, params, rule) && block_has(structs, rule.block, content_kinds(params, rule))
}

fn rules_fit_structs(structs: &[StructInfo], defs: &[Def], params: &[Kind], rules: &[Rule]) -> bool
    ensures { IsTrue result ↔ All (RuleFitsStructs structs.now defs.now params.now) rules.now }
{
    rules
        .iter()
        .all(|rule| rule_fits_structs(structs, defs, params, rule))
}

fn def_fits_structs(structs: &[StructInfo], defs: &[Def], def: &Def) -> bool
    ensures { IsTrue result ↔ DefFits structs.now defs.now def.now }
{
    def.rules.len() != 0
        && rules_fit_structs(structs, defs, def.params.as_slice(), def.rules.as_slice())
}

// Whether the definitions fit these structs.
pub fn defs_fit(structs: &[StructInfo], defs: &[Def]) -> bool
    ensures { IsTrue result ↔ DefsFit structs.now defs.now }
{
    defs.iter().all(|def| def_fits_structs(structs, defs, def))
}

// Two rules with blocks of one struct agree on the kinds of its fields.
fn agree(params: &[Kind], rule: &Rule, other_params: &[Kind], other: &Rule) -> bool
    ensures { IsTrue result ↔ Agree params.now rule.now other_params.now other.now }
{
    match (rule.block, other.block) {
        (Some(shape), Some(other_shape)) if shape.0 == other_shape.0 => same_kinds(
            content_kinds(params, rule),
            content_kinds(other_params, other),
        ),
        _ => true,
    }
}

fn agrees_with_rules(params: &[Kind], rule: &Rule, def: &Def) -> bool
    ensures { IsTrue result ↔ All (λ other. Agree params.now rule.now def.now.params other) def.now.rules }
{
    def.rules
        .as_slice()
        .iter()
        .all(|other| agree(params, rule, def.params.as_slice(), other))
}

fn agrees_with_defs(params: &[Kind], rule: &Rule, defs: &[Def]) -> bool
    ensures { IsTrue result ↔ All (λ def. All (λ other. Agree params.now rule.now def.params other) def.rules) defs.now }
{
    defs.iter().all(|def| agrees_with_rules(params, rule, def))
}

fn is_bare(rule: &Rule) -> bool
    ensures { IsTrue result ↔ (rule.now.block ≡ None → rule.now.contents ≡ []) }
{
    rule.block.is_some() || rule.contents.len() == 0
}

fn rule_fits_alone(defs: &[Def], params: &[Kind], rule: &Rule) -> bool
    ensures { IsTrue result ↔ RuleFitsAlone defs.now params.now rule.now }
{
    rule_fits(defs, params, rule) && is_bare(rule) && agrees_with_defs(params, rule, defs)
}

fn rules_fit_alone(defs: &[Def], params: &[Kind], rules: &[Rule]) -> bool
    ensures { IsTrue result ↔ All (RuleFitsAlone defs.now params.now) rules.now }
{
    rules.iter().all(|rule| rule_fits_alone(defs, params, rule))
}

fn def_fits_alone(defs: &[Def], def: &Def) -> bool
    ensures { IsTrue result ↔ DefFitsAlone defs.now def.now }
{
    def.rules.len() != 0 && rules_fit_alone(defs, def.params.as_slice(), def.rules.as_slice())
}

fn defs_fit_alone(defs: &[Def]) -> bool
    ensures { IsTrue result ↔ All (DefFitsAlone defs.now) defs.now }
{
    defs.iter().all(|def| def_fits_alone(defs, def))
}

// Whether the definitions fit any structs.
pub fn defs_fit_some(defs: &[Def]) -> bool
    ensures { IsTrue result ↔ IsDefs defs.now }
{
    defs_fit_alone(defs)
}
