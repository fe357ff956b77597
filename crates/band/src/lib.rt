// What a band is: as it is written, and what may be found in a code. Definitions and theorems; the code stands in row,
// writer, sight and reader.
#![tactic(auto)]
