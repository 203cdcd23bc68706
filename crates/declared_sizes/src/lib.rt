// Declared sizes: no code, only theorems. A COUNT changes no answer, and with one a lost command is noticed.
#![tactic(auto)]
