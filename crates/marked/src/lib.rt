// Document 01's marked cases: definitions and theorems alone, in specs/.
#![tactic(auto)]
