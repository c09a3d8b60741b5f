// Laws of pull numbers.
ghost use Rattle.std.specs.Prelude.{◌≡◌, ◌≢◌, ℕ, ◌^◌, ◌%◌, ◌<◌};
ghost use Rattle.sq_shared.specs.declared.numbers.TheConstants.{MAX_OWNERS, MAX_CLAIMS};
ghost use Rattle.sq_shared.specs.Numbers.{reactive_pull, pump_pull};

/// A pull number names the owner of its claim and which of the owner's claims it is: no two claims
/// have the same number.
pub fn each_claim_has_a_pull_of_its_own()
    ensures partitions { (part other won count : ℕ) → part < MAX_OWNERS → other < MAX_OWNERS
        → reactive_pull part won ≡ reactive_pull other count → (part ≡ other) × (won ≡ count) }
    ensures pumps { (pump other won count : ℕ) → pump < MAX_OWNERS → other < MAX_OWNERS
        → pump_pull pump won ≡ pump_pull other count → (pump ≡ other) × (won ≡ count) }
    ensures apart { (part pump won count : ℕ) → reactive_pull part won ≢ pump_pull pump count }
{}

/// The pull number of a partition is odd, which marks it as reactive, and that of a pump is even.
/// Both fit in 32 bits.
pub fn a_pull_is_odd_where_it_is_reactive()
    ensures odd { (part won : ℕ) → reactive_pull part won % 2 ≡ 1 }
    ensures even { (pump won : ℕ) → pump_pull pump won % 2 ≡ 0 }
    ensures reactive_bits { (part won : ℕ) → part < MAX_OWNERS → won < MAX_CLAIMS
        → reactive_pull part won < 2 ^ 32 }
    ensures pump_bits { (pump won : ℕ) → pump < MAX_OWNERS → won < MAX_CLAIMS
        → pump_pull pump won < 2 ^ 32 }
{}
