//! Names for the lengths from 80 to 159.

use crate::Size;

pub type U80 = Size<80>;

pub type U81 = Size<81>;

pub type U82 = Size<82>;

pub type U83 = Size<83>;

pub type U84 = Size<84>;

pub type U85 = Size<85>;

pub type U86 = Size<86>;

pub type U87 = Size<87>;

pub type U88 = Size<88>;

pub type U89 = Size<89>;

pub type U90 = Size<90>;

pub type U91 = Size<91>;

pub type U92 = Size<92>;

pub type U93 = Size<93>;

pub type U94 = Size<94>;

pub type U95 = Size<95>;

pub type U96 = Size<96>;

pub type U97 = Size<97>;

pub type U98 = Size<98>;

pub type U99 = Size<99>;

pub type U100 = Size<100>;

pub type U101 = Size<101>;

pub type U102 = Size<102>;

pub type U103 = Size<103>;

pub type U104 = Size<104>;

pub type U105 = Size<105>;

pub type U106 = Size<106>;

pub type U107 = Size<107>;

pub type U108 = Size<108>;

pub type U109 = Size<109>;

pub type U110 = Size<110>;

pub type U111 = Size<111>;

pub type U112 = Size<112>;

pub type U113 = Size<113>;

pub type U114 = Size<114>;

pub type U115 = Size<115>;

pub type U116 = Size<116>;

pub type U117 = Size<117>;

pub type U118 = Size<118>;

pub type U119 = Size<119>;

pub type U120 = Size<120>;

pub type U121 = Size<121>;

pub type U122 = Size<122>;

pub type U123 = Size<123>;

pub type U124 = Size<124>;

pub type U125 = Size<125>;

pub type U126 = Size<126>;

pub type U127 = Size<127>;

pub type U128 = Size<128>;

pub type U129 = Size<129>;

pub type U130 = Size<130>;

pub type U131 = Size<131>;

pub type U132 = Size<132>;

pub type U133 = Size<133>;

pub type U134 = Size<134>;

pub type U135 = Size<135>;

pub type U136 = Size<136>;

pub type U137 = Size<137>;

pub type U138 = Size<138>;

pub type U139 = Size<139>;

pub type U140 = Size<140>;

pub type U141 = Size<141>;

pub type U142 = Size<142>;

pub type U143 = Size<143>;

pub type U144 = Size<144>;

pub type U145 = Size<145>;

pub type U146 = Size<146>;

pub type U147 = Size<147>;

pub type U148 = Size<148>;

pub type U149 = Size<149>;

pub type U150 = Size<150>;

pub type U151 = Size<151>;

pub type U152 = Size<152>;

pub type U153 = Size<153>;

pub type U154 = Size<154>;

pub type U155 = Size<155>;

pub type U156 = Size<156>;

pub type U157 = Size<157>;

pub type U158 = Size<158>;

pub type U159 = Size<159>;
