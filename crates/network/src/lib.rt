// Runs on many machines, whose words are on a memory server: that what they do together, each with its own client and a list of operations in flight, is a history. There is no code here.
#![tactic(auto)]
