// Laws of numbers: the bits of a word, integers for linear arithmetic, ranges of signed numbers. No code.
#![tactic(auto)]
