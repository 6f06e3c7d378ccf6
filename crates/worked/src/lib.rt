// docs/SCOPE.md's worked bytes, proved: specs/Table.antt has the rows, and specs/Worked.antt their one statement. Its six idle versions, each
// shut out by the contract: specs/Idle.antt, and of each kind: specs/EveryKind.antt. There is no code here.
#![tactic(auto)]
