// Price lists as text (02, A3) with no program: what a list of lines says, by which number it is refused, the text that
// is written of prices, and that each is the other way round. There is no code here.
#![tactic(auto)]
