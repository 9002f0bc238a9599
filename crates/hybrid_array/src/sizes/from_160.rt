//! Names for the lengths from 160 to 239.

use crate::Size;

pub type U160 = Size<160>;

pub type U161 = Size<161>;

pub type U162 = Size<162>;

pub type U163 = Size<163>;

pub type U164 = Size<164>;

pub type U165 = Size<165>;

pub type U166 = Size<166>;

pub type U167 = Size<167>;

pub type U168 = Size<168>;

pub type U169 = Size<169>;

pub type U170 = Size<170>;

pub type U171 = Size<171>;

pub type U172 = Size<172>;

pub type U173 = Size<173>;

pub type U174 = Size<174>;

pub type U175 = Size<175>;

pub type U176 = Size<176>;

pub type U177 = Size<177>;

pub type U178 = Size<178>;

pub type U179 = Size<179>;

pub type U180 = Size<180>;

pub type U181 = Size<181>;

pub type U182 = Size<182>;

pub type U183 = Size<183>;

pub type U184 = Size<184>;

pub type U185 = Size<185>;

pub type U186 = Size<186>;

pub type U187 = Size<187>;

pub type U188 = Size<188>;

pub type U189 = Size<189>;

pub type U190 = Size<190>;

pub type U191 = Size<191>;

pub type U192 = Size<192>;

pub type U193 = Size<193>;

pub type U194 = Size<194>;

pub type U195 = Size<195>;

pub type U196 = Size<196>;

pub type U197 = Size<197>;

pub type U198 = Size<198>;

pub type U199 = Size<199>;

pub type U200 = Size<200>;

pub type U201 = Size<201>;

pub type U202 = Size<202>;

pub type U203 = Size<203>;

pub type U204 = Size<204>;

pub type U205 = Size<205>;

pub type U206 = Size<206>;

pub type U207 = Size<207>;

pub type U208 = Size<208>;

pub type U209 = Size<209>;

pub type U210 = Size<210>;

pub type U211 = Size<211>;

pub type U212 = Size<212>;

pub type U213 = Size<213>;

pub type U214 = Size<214>;

pub type U215 = Size<215>;

pub type U216 = Size<216>;

pub type U217 = Size<217>;

pub type U218 = Size<218>;

pub type U219 = Size<219>;

pub type U220 = Size<220>;

pub type U221 = Size<221>;

pub type U222 = Size<222>;

pub type U223 = Size<223>;

pub type U224 = Size<224>;

pub type U225 = Size<225>;

pub type U226 = Size<226>;

pub type U227 = Size<227>;

pub type U228 = Size<228>;

pub type U229 = Size<229>;

pub type U230 = Size<230>;

pub type U231 = Size<231>;

pub type U232 = Size<232>;

pub type U233 = Size<233>;

pub type U234 = Size<234>;

pub type U235 = Size<235>;

pub type U236 = Size<236>;

pub type U237 = Size<237>;

pub type U238 = Size<238>;

pub type U239 = Size<239>;
