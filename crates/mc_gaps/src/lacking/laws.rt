// What is known of states. The law is what a function ensures that only looks.
ghost use Rattle.mc_state.specs.Known.{Test, Tells};

use mc_symbolic::State;

/// A state has a test that tells what is entailed of it.
pub fn is_told(s: &State)
    ensures { (know : Test) × Tells know s.now }
{
    mc_pure::each_is_decided();
    let pure = s.known();
    pure.is_kept();
}
