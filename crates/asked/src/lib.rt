// Why a lamp has its value: definitions and laws, no code (specification, 5.13).
#![tactic(auto)]
