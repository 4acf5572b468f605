// The numbers that are tried as inputs.
use crate::draws::Draws;
use mc_base::NoMemory;
use std::alloc::Global;

// The least and the greatest `int`.
const LEAST: i64 = -2147483648;

const GREATEST: i64 = 2147483647;

/// Numbers that are tried: small ones, the constants of the program, and their neighbours.
#[derive(Drop)]
pub struct Numbers {
    list: Vec<i64>,
}

// Adds a number that is an `int` and is not there.
fn add(list: &mut Vec<i64>, number: i64) -> Result<(), NoMemory> {
    if number < LEAST || number > GREATEST || list.as_slice().contains(&number) {
        return Ok(());
    }
    list.push(number)?;
    Ok(())
}

impl Numbers {
    /// The numbers for a program with these constants.
    pub fn of(alloc: Global, constants: &[i64]) -> Result<Numbers, NoMemory> {
        let mut list = Vec::new(alloc);
        for small in [0, 1, -1, 2] {
            add(&mut list, small)?;
        }
        for constant in constants {
            add(&mut list, *constant)?;
            add(&mut list, constant.saturating_add(1))?;
            add(&mut list, constant.saturating_sub(1))?;
        }
        Ok(Numbers { list })
    }

    /// One of the numbers; of the first four only, where that is asked.
    pub fn draw(&self, draws: &mut Draws, small: bool) -> i64 {
        let list = self.list.as_slice();
        let most = if small { 4 } else { list.len() };
        list.get(draws.place(most)).copied().unwrap_or(0)
    }
}
