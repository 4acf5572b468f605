// Which of several chains is told.
use crate::walks::{Attempt, Blocked, count_missing};
use mc_base::NoMemory;

/// How well a chain tells the faults of a program; less is better. How many of those that are known
/// it leaves out, and how many it has besides; how many alarms it has beyond a few at each place; whether a head has lost
/// something; and how many alarms and lines it has.
#[derive(Clone, Copy)]
pub struct Rank {
    missed: u64,
    besides: u64,
    repeats: u64,
    is_weak: bool,
    pub alarms: u64,
    length: u64,
}

/// So many alarms at each place are few.
const FEW: u64 = 3;

impl Rank {
    /// The rank of an attempt's chain, where these faults are known.
    pub fn of(attempt: &Attempt<'_>, faults: &[Blocked]) -> Result<Rank, NoMemory> {
        let (places, alarms) = attempt.blocked()?;
        let few = (places.len() as u64).saturating_mul(FEW);
        Ok(Rank {
            missed: count_missing(faults, places.as_slice()),
            besides: count_missing(places.as_slice(), faults),
            repeats: alarms.saturating_sub(few),
            is_weak: attempt.weak_heads() > 0,
            alarms,
            length: attempt.length(),
        })
    }

    /// Whether the faults that are told are just those that are known.
    pub fn is_right(&self) -> bool {
        self.missed == 0 && self.besides == 0
    }

    /// Whether no other rank can be better but by alarms or length, or whether there is no alarm.
    pub fn is_best(&self) -> bool {
        self.alarms == 0 || (self.is_right() && self.repeats == 0 && !self.is_weak)
    }

    /// The parts, the first of them most important.
    fn parts(&self) -> [u64; 6] {
        [
            self.missed,
            self.besides,
            self.repeats,
            self.is_weak as u64,
            self.alarms,
            self.length,
        ]
    }

    /// Whether it is better than another.
    pub fn is_better(&self, other: &Rank) -> bool {
        let owns = self.parts();
        let others = other.parts();
        for (place, own) in owns.iter().enumerate() {
            match others.get(place) {
                Some(part) => {
                    if *own != *part {
                        return *own < *part;
                    }
                }
                None => return false,
            }
        }
        false
    }
}
