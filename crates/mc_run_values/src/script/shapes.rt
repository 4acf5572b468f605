// The structs of a program, found by their names.
ghost use Rattle.std.specs.Prelude.{◌≡◌, IfOk, map, position};
ghost use Rattle.mc_c_syntax.specs.Ast.Names.{is_same};

use mc_base::text::Text;
use mc_c_syntax::names::Names;
use mc_flow::defs::StructInfo;
use std::alloc::{AllocError, Global};
use std::marker::Model;

/// The names of structs.
pub fn struct_texts(alloc: Global, structs: &[StructInfo]) -> Result<Vec<Text>, AllocError>
    ensures { IfOk result (λ texts. texts.items ≡ map (λ info. info.name) structs.now) }
{
    let mut texts = Vec::new(alloc);
    for info in structs {
        texts.push(Text::of(alloc, info.name.as_slice())?)?;
    }
    Ok(texts)
}

fn names_of(alloc: Global, texts: &[Text]) -> Result<Names<'_>, AllocError>
    ensures { IfOk result (λ names. names ≡ texts.now) }
{
    let mut names = Names::new(alloc);
    for text in texts {
        names.push(text)?;
    }
    Ok(names)
}

/// The structs of a program, found by their names.
#[derive(Drop)]
pub struct NamedStructs<'a> {
    structs: &'a [StructInfo],
    names: Names<'a>,
}

impl<'a> Model for NamedStructs<'a> {
    ghost use Rattle.std.specs.Prelude.{◌≡◌, List, map};
    ghost use Rattle.mc_flow.specs.declared.defs.shapes.StructInfo.{StructInfo};

    ghost Value = { List StructInfo };

    ghost view = { λ n. n.structs.now };

    ghost invariant = { λ n. n.names ≡ map (λ info. info.name) n.structs.now };
}

impl<'a> NamedStructs<'a> {
    /// These structs, whose names are the texts.
    pub fn of(
        alloc: Global,
        structs: &'a [StructInfo],
        texts: &'a [Text],
    ) -> Result<NamedStructs<'a>, AllocError>
        requires { texts.now ≡ map (λ info. info.name) structs.now }
        ensures { IfOk result (λ named. named ≡ structs.now) }
    {
        let names = names_of(alloc, texts)?;
        Ok(NamedStructs { structs, names })
    }

    /// The number of the first struct of a name.
    pub fn number(&self, name: &Text) -> Option<usize>
        ensures { result ≡ position (λ info. is_same info.name name.now) self.now }
    {
        self.names.place(name)
    }
}
