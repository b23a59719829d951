// Histories of the book: what any list of calls leaves standing, and the theorems that the store agrees with it.
// There is no code here: specs/History.antt speaks of the calls' definitions, which are what the contracts of the book cite.
#![tactic(auto)]
