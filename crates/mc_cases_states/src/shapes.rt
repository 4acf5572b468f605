// The structs, and the definitions of a file.
use anyhow::{Result, bail};
use mc_base::{Items, Kind};
use mc_c_syntax::lex::MAX_BYTES;
use mc_cases::read::text;
use mc_def_read::read_defs;
use mc_flow::defs::{Def, Defs, FieldInfo, StructInfo, Structs};
use serde_json::Value;
use std::alloc::{AllocError, Global};
use std::rt::Files;

/// The structs of all cases, and the definitions of a file.
#[derive(Drop)]
pub struct Shapes {
    structs: Structs,
    defs: Defs,
}

/// The name of a file in the folder of another.
fn beside(alloc: Global, file: &str, name: &str) -> Result<String, AllocError> {
    match file.rsplit_once('/') {
        Some((folder, _)) => format!(in alloc; "{folder}/{name}"),
        None => String::from_str(alloc, name),
    }
}

/// The definition file that the first of these values names.
fn named(values: &[Value]) -> Option<&str> {
    values.first()?.get("definitions")?.as_str()
}

impl Shapes {
    /// The structs, and the definitions that the first value of a file names, or none.
    pub fn first(rt: &(impl Files + AllocGlobal), file: &str, values: &[Value]) -> Result<Shapes> {
        match named(values) {
            Some(name) => {
                let name = beside(rt.alloc(), file, name)?;
                Shapes::of(rt.alloc(), text(rt, name.as_str())?.as_str())
            }
            None => Ok(Shapes::without(rt.alloc())?),
        }
    }

    /// The structs without definitions.
    fn without(alloc: Global) -> Result<Shapes, AllocError> {
        Ok(Shapes {
            structs: structs(alloc)?,
            defs: Defs::new(alloc),
        })
    }

    /// The structs, and the definitions of a text.
    fn of(alloc: Global, text: &str) -> Result<Shapes> {
        if text.len() > MAX_BYTES {
            bail!("the definitions are too long");
        }
        let structs = structs(alloc)?;
        match read_defs(alloc, text.as_bytes(), &structs) {
            Ok(defs) => Ok(Shapes { structs, defs }),
            Err(fault) => bail!("the definitions are refused: {fault:?}"),
        }
    }

    /// The definitions.
    pub fn defs(&self) -> &Defs {
        &self.defs
    }

    /// The definitions, by their numbers.
    pub fn list(&self) -> &[Def] {
        self.defs.as_slice()
    }

    /// The structs, by their numbers.
    pub fn structs(&self) -> &[StructInfo] {
        self.structs.list.as_slice()
    }
}

/// Bytes of a name.
pub fn name(alloc: Global, text: &str) -> Result<Items<u8>, AllocError> {
    Ok(Items::of(Vec::from_slice(alloc, text.as_bytes())?))
}

fn field(alloc: Global, text: &str, kind: Kind) -> Result<FieldInfo, AllocError> {
    Ok(FieldInfo {
        name: name(alloc, text)?,
        kind,
    })
}

fn info(
    alloc: Global,
    text: &str,
    first: FieldInfo,
    second: FieldInfo,
) -> Result<StructInfo, AllocError> {
    let mut fields = Items::new(alloc);
    fields.push(first)?;
    fields.push(second)?;
    Ok(StructInfo {
        name: name(alloc, text)?,
        fields,
    })
}

/// The structs `node` and `t`.
fn structs(alloc: Global) -> Result<Structs, AllocError> {
    let data = field(alloc, "data", Kind::Int)?;
    let next = field(alloc, "next", Kind::Ptr)?;
    let left = field(alloc, "l", Kind::Ptr)?;
    let right = field(alloc, "r", Kind::Ptr)?;
    let mut list = Items::new(alloc);
    list.push(info(alloc, "node", data, next)?)?;
    list.push(info(alloc, "t", left, right)?)?;
    Ok(Structs { list })
}
