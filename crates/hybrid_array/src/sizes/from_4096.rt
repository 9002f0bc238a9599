//! Names for the lengths from 4096 to 1357824.

use crate::Size;

pub type U4096 = Size<4096>;

pub type U4292 = Size<4292>;

pub type U4433 = Size<4433>;

pub type U4480 = Size<4480>;

pub type U4514 = Size<4514>;

pub type U4544 = Size<4544>;

pub type U4595 = Size<4595>;

pub type U4627 = Size<4627>;

pub type U4896 = Size<4896>;

pub type U6492 = Size<6492>;

pub type U7237 = Size<7237>;

pub type U7856 = Size<7856>;

pub type U8160 = Size<8160>;

pub type U8192 = Size<8192>;

pub type U8516 = Size<8516>;

pub type U8978 = Size<8978>;

pub type U9616 = Size<9616>;

pub type U9720 = Size<9720>;

pub type U9752 = Size<9752>;

pub type U12240 = Size<12240>;

pub type U13608 = Size<13608>;

pub type U13932 = Size<13932>;

pub type U13948 = Size<13948>;

pub type U14120 = Size<14120>;

pub type U14421 = Size<14421>;

pub type U15632 = Size<15632>;

pub type U15744 = Size<15744>;

pub type U15792 = Size<15792>;

pub type U16224 = Size<16224>;

pub type U16320 = Size<16320>;

pub type U17088 = Size<17088>;

pub type U19888 = Size<19888>;

pub type U21520 = Size<21520>;

pub type U21632 = Size<21632>;

pub type U21696 = Size<21696>;

pub type U29792 = Size<29792>;

pub type U31296 = Size<31296>;

pub type U35664 = Size<35664>;

pub type U43088 = Size<43088>;

pub type U49856 = Size<49856>;

pub type U261120 = Size<261120>;

pub type U524160 = Size<524160>;

pub type U1044992 = Size<1044992>;

pub type U1047319 = Size<1047319>;

pub type U1357824 = Size<1357824>;
