// Two readers of one recording, given a label: the office reads what `replay` leaves, the floor reads stars for what stands under the label. Definitions, the theorem that the floor learns nothing of
// what the stars stand for, and its proof: no functions.
#![tactic(auto)]
