// What the project promises beyond the contracts of its functions: for each demand a record of theorems, in specs/. The functions do nothing; their
// contracts are the demands, so that no theorem can go without the check failing.
#![tactic(auto)]

ghost use Rattle.promises.specs.Demand1.{Demand1};
ghost use Rattle.promises.specs.Demand2.{Demand2};
ghost use Rattle.promises.specs.Demand3.{Demand3};

pub fn demand1()
    ensures { Demand1 }
{}

pub fn demand2()
    ensures { Demand2 }
{}

pub fn demand3()
    ensures { Demand3 }
{}
