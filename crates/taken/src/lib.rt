// A set of up to 32 positions, the taken ones of a path: the ones of a number, its lowest bit being position 0.
#![tactic(auto)]

ghost use Rattle.std.specs.Prelude.{◌≡◌, ◌<◌};
ghost use Rattle.taken.specs.Taken.{is_taken, with_bit, first_free, is_run};

// Whether position k is taken.
#[tactic(auto, using(crate::proofs::Bits::shifted), unfolding(crate::specs::Taken::is_taken))]
pub fn is_taken(taken: u32, k: u32) -> bool
    requires { k < 32 }
    ensures { result ≡ is_taken taken k }
{
    (taken >> k) % 2 == 1
}

// The taken positions with position k.
#[tactic(auto, using(crate::proofs::Bits::bit_set))]
pub fn with_bit(taken: u32, k: u32) -> u32
    requires { k < 32 }
    ensures { result ≡ with_bit taken k }
{
    taken | (1 << k)
}

// The smallest position that is not taken.
#[tactic(auto, using(crate::proofs::Bits::first_free_counted))]
pub fn first_free(taken: u32) -> u32
    ensures { result ≡ first_free taken }
{
    taken.trailing_ones()
}

// Whether the taken positions run from position 0.
#[tactic(auto, using(crate::proofs::Bits::run_test))]
pub fn is_top_run(taken: u32) -> bool
    ensures { result ≡ is_run taken }
{
    taken.count_ones() == taken.trailing_ones()
}
