// Atoms in order.
ghost use Rattle.std.specs.Prelude.{◌≡◌, IfOk};
ghost use Rattle.mc_pure_ops.specs.Canon.Order.{key, PlaceIs, SpotIs, Added, IsSomeOf};

use mc_base::{Atom, NoMemory};

/// What atoms are ordered by.
#[derive(Clone, Copy)]
pub struct Key {
    pub rank: u64,
    pub node: u64,
    pub second: i128,
    pub third: i128,
}

/// Where one stands to another.
#[derive(Clone, Copy)]
pub enum Place {
    Before,
    Same,
    After,
}

/// The place of an atom in a list that is in order.
#[derive(Clone, Copy)]
pub enum Spot {
    There,
    At(usize),
}

/// The key of an atom.
fn key_of(atom: &Atom) -> Key
    ensures { result ≡ key atom.now }
{
    match atom {
        Atom::In(a, lo, hi) => Key {
            rank: 0,
            node: a.0,
            second: i128::from(*lo),
            third: i128::from(*hi),
        },
        Atom::Eq(a, b, c) => Key {
            rank: 1,
            node: a.0,
            second: i128::from(b.0),
            third: i128::from(*c),
        },
        Atom::Ne(a, b, c) => Key {
            rank: 2,
            node: a.0,
            second: i128::from(b.0),
            third: i128::from(*c),
        },
    }
}

/// Where a key stands to another.
fn compare(a: &Key, b: &Key) -> Place
    ensures { PlaceIs a.now b.now result }
{
    if a.rank < b.rank {
        Place::Before
    } else if b.rank < a.rank {
        Place::After
    } else if a.node < b.node {
        Place::Before
    } else if b.node < a.node {
        Place::After
    } else if a.second < b.second {
        Place::Before
    } else if b.second < a.second {
        Place::After
    } else if a.third < b.third {
        Place::Before
    } else if b.third < a.third {
        Place::After
    } else {
        Place::Same
    }
}

/// Where an atom stands to another.
fn placed(a: &Atom, b: &Atom) -> Place
    ensures { PlaceIs (key a.now) (key b.now) result }
{
    let first = key_of(a);
    let second = key_of(b);
    compare(&first, &second)
}

/// Finds an atom's place in a list that is in order.
fn spot_of(list: &[Atom], atom: &Atom) -> Spot
    ensures { SpotIs list.now atom.now result }
{
    let mut low = 0;
    let mut high = list.len();
    while low < high {
        let middle = low + (high - low) / 2;
        match placed(&list[middle], atom) {
            Place::Before => low = middle + 1,
            Place::Same => return Spot::There,
            Place::After => high = middle,
        }
    }
    Spot::At(low)
}

/// Puts an atom into a list that is in order, if it is not there.
fn put_in(list: &mut Vec<Atom>, atom: Atom) -> Result<(), NoMemory>
    ensures { IfOk result (λ _. Added (λ g. g ≡ atom) list.old.items list.new.items) }
{
    match spot_of(list, &atom) {
        Spot::There => Ok(()),
        Spot::At(place) => {
            list.insert(place, atom)?;
            Ok(())
        }
    }
}

/// Puts in what there is.
pub fn put_some(list: &mut Vec<Atom>, atom: Option<Atom>) -> Result<(), NoMemory>
    ensures { IfOk result (λ _. Added (IsSomeOf atom) list.old.items list.new.items) }
{
    match atom {
        Some(found) => put_in(list, found),
        None => Ok(()),
    }
}
