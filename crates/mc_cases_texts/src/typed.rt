// Programs, and what is wrong with texts that are none.
use crate::input::bytes;
use anyhow::{Result, bail};
use mc_c_syntax::lex::MAX_BYTES;
use mc_cases::{Case, latin};
use mc_load::read::{ReadFault, read};
use std::alloc::Global;

/// What is wrong with a case's text; nothing where it is a program.
pub fn came(alloc: Global, case: Case<'_>) -> Result<String> {
    let text = bytes(alloc, case, "text")?;
    if text.len() > MAX_BYTES {
        bail!("too long");
    }
    match read(alloc, text.as_slice(), b"main") {
        Ok(_) => Ok(String::new(alloc)),
        Err(fault) => shown(alloc, &fault),
    }
}

fn shown(alloc: Global, fault: &ReadFault) -> Result<String> {
    match fault {
        ReadFault::Refused(refusal) => {
            let mut out = Vec::new(alloc);
            refusal.print(alloc, &mut out)?;
            Ok(latin::text_of(alloc, out.as_slice())?)
        }
        ReadFault::NoMemory => bail!("out of memory"),
    }
}
