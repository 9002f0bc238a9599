//! Names for the lengths from 240 to 319.

use crate::Size;

pub type U240 = Size<240>;

pub type U241 = Size<241>;

pub type U242 = Size<242>;

pub type U243 = Size<243>;

pub type U244 = Size<244>;

pub type U245 = Size<245>;

pub type U246 = Size<246>;

pub type U247 = Size<247>;

pub type U248 = Size<248>;

pub type U249 = Size<249>;

pub type U250 = Size<250>;

pub type U251 = Size<251>;

pub type U252 = Size<252>;

pub type U253 = Size<253>;

pub type U254 = Size<254>;

pub type U255 = Size<255>;

pub type U256 = Size<256>;

pub type U257 = Size<257>;

pub type U258 = Size<258>;

pub type U259 = Size<259>;

pub type U260 = Size<260>;

pub type U261 = Size<261>;

pub type U262 = Size<262>;

pub type U263 = Size<263>;

pub type U264 = Size<264>;

pub type U265 = Size<265>;

pub type U266 = Size<266>;

pub type U267 = Size<267>;

pub type U268 = Size<268>;

pub type U269 = Size<269>;

pub type U270 = Size<270>;

pub type U271 = Size<271>;

pub type U272 = Size<272>;

pub type U273 = Size<273>;

pub type U274 = Size<274>;

pub type U275 = Size<275>;

pub type U276 = Size<276>;

pub type U277 = Size<277>;

pub type U278 = Size<278>;

pub type U279 = Size<279>;

pub type U280 = Size<280>;

pub type U281 = Size<281>;

pub type U282 = Size<282>;

pub type U283 = Size<283>;

pub type U284 = Size<284>;

pub type U285 = Size<285>;

pub type U286 = Size<286>;

pub type U287 = Size<287>;

pub type U288 = Size<288>;

pub type U289 = Size<289>;

pub type U290 = Size<290>;

pub type U291 = Size<291>;

pub type U292 = Size<292>;

pub type U293 = Size<293>;

pub type U294 = Size<294>;

pub type U295 = Size<295>;

pub type U296 = Size<296>;

pub type U297 = Size<297>;

pub type U298 = Size<298>;

pub type U299 = Size<299>;

pub type U300 = Size<300>;

pub type U301 = Size<301>;

pub type U302 = Size<302>;

pub type U303 = Size<303>;

pub type U304 = Size<304>;

pub type U305 = Size<305>;

pub type U306 = Size<306>;

pub type U307 = Size<307>;

pub type U308 = Size<308>;

pub type U309 = Size<309>;

pub type U310 = Size<310>;

pub type U311 = Size<311>;

pub type U312 = Size<312>;

pub type U313 = Size<313>;

pub type U314 = Size<314>;

pub type U315 = Size<315>;

pub type U316 = Size<316>;

pub type U317 = Size<317>;

pub type U318 = Size<318>;

pub type U319 = Size<319>;
