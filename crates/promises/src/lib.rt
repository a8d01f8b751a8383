// What is promised of several crates together: of files read and written, of tunings by them, the starred samples, equal steps. Theorems alone.
#![tactic(auto)]
