#![tactic(auto)]

// That every contract decides the whole answer: see specs/NoSecondAnswer.antt. There is no code here.
