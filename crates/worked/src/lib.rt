// The worked cases: values from outside the code, as theorems about the definitions.
#![tactic(auto)]

ghost use Rattle.std.specs.Prelude.{◌≡◌, length};
ghost use Rattle.transforms.specs.Images.{representative};
ghost use Rattle.classes.specs.Owned.{and_ownership};
ghost use Rattle.plans.specs.Plans.{plan_of};
ghost use Rattle.worked.specs.Cases.{MajorityOfOpposites};

/// Representatives of the AND and the exclusive-or of two variables and of the majority of three; the lines that the
/// AND kind takes for the last two; and the place call for the majority of a, not a and b, which answers b. It runs
/// nothing: its contract is the table of these cases.
pub fn worked_cases()
    ensures conjunction { representative 0x8888 ≡ 15 }
    ensures exclusive { representative 0x6666 ≡ 4080 }
    ensures majority { representative 0xE8E8 ≡ 831 }
    ensures exclusive_lines { length (plan_of and_ownership 0x6666).lines ≡ 3 }
    ensures opposites { MajorityOfOpposites }
    ensures majority_lines { length (plan_of and_ownership 0xE8E8).lines ≡ 5 }
{}
