// Reading the front of a text: what a function gives that does, and what the rules leave of the text. There is no code here.

#![tactic(auto)]
