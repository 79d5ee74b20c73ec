// Document 01's sheet for the test bench, P1 to P12, as one table of cases that is settled by proof. There is no code.
#![tactic(auto)]
