// What it is that a contract decides its outcome: definitions alone, which every library crate cites.

#![tactic(auto)]
