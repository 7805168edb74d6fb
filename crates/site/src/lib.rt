//! Runs: any list of calls on a new library.

#![tactic(auto)]

ghost use Rattle.site.specs.Examples.{WorkedRules};
ghost use Rattle.site.specs.Law.{RefusedUnchanged};

use host::worked_examples;

pub fn refused_unchanged() -> u8
    ensures { RefusedUnchanged }
{
    0
}

pub fn worked_rules() -> u8
    ensures { WorkedRules }
{
    worked_examples()
}
