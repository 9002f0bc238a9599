//! Names for the lengths from 0 to 79.

use crate::Size;

pub type U0 = Size<0>;

pub type U1 = Size<1>;

pub type U2 = Size<2>;

pub type U3 = Size<3>;

pub type U4 = Size<4>;

pub type U5 = Size<5>;

pub type U6 = Size<6>;

pub type U7 = Size<7>;

pub type U8 = Size<8>;

pub type U9 = Size<9>;

pub type U10 = Size<10>;

pub type U11 = Size<11>;

pub type U12 = Size<12>;

pub type U13 = Size<13>;

pub type U14 = Size<14>;

pub type U15 = Size<15>;

pub type U16 = Size<16>;

pub type U17 = Size<17>;

pub type U18 = Size<18>;

pub type U19 = Size<19>;

pub type U20 = Size<20>;

pub type U21 = Size<21>;

pub type U22 = Size<22>;

pub type U23 = Size<23>;

pub type U24 = Size<24>;

pub type U25 = Size<25>;

pub type U26 = Size<26>;

pub type U27 = Size<27>;

pub type U28 = Size<28>;

pub type U29 = Size<29>;

pub type U30 = Size<30>;

pub type U31 = Size<31>;

pub type U32 = Size<32>;

pub type U33 = Size<33>;

pub type U34 = Size<34>;

pub type U35 = Size<35>;

pub type U36 = Size<36>;

pub type U37 = Size<37>;

pub type U38 = Size<38>;

pub type U39 = Size<39>;

pub type U40 = Size<40>;

pub type U41 = Size<41>;

pub type U42 = Size<42>;

pub type U43 = Size<43>;

pub type U44 = Size<44>;

pub type U45 = Size<45>;

pub type U46 = Size<46>;

pub type U47 = Size<47>;

pub type U48 = Size<48>;

pub type U49 = Size<49>;

pub type U50 = Size<50>;

pub type U51 = Size<51>;

pub type U52 = Size<52>;

pub type U53 = Size<53>;

pub type U54 = Size<54>;

pub type U55 = Size<55>;

pub type U56 = Size<56>;

pub type U57 = Size<57>;

pub type U58 = Size<58>;

pub type U59 = Size<59>;

pub type U60 = Size<60>;

pub type U61 = Size<61>;

pub type U62 = Size<62>;

pub type U63 = Size<63>;

pub type U64 = Size<64>;

pub type U65 = Size<65>;

pub type U66 = Size<66>;

pub type U67 = Size<67>;

pub type U68 = Size<68>;

pub type U69 = Size<69>;

pub type U70 = Size<70>;

pub type U71 = Size<71>;

pub type U72 = Size<72>;

pub type U73 = Size<73>;

pub type U74 = Size<74>;

pub type U75 = Size<75>;

pub type U76 = Size<76>;

pub type U77 = Size<77>;

pub type U78 = Size<78>;

pub type U79 = Size<79>;
