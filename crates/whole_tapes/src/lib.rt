// What a whole order tape comes to, command by command, as a function of its bytes alone (O10 to O12). There is no code
// here: `tape` carries out one command at a time, and this says what follows for a tape.
#![tactic(auto)]
