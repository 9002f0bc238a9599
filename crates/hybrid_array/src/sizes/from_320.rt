//! Names for the lengths from 320 to 399.

use crate::Size;

pub type U320 = Size<320>;

pub type U321 = Size<321>;

pub type U322 = Size<322>;

pub type U323 = Size<323>;

pub type U324 = Size<324>;

pub type U325 = Size<325>;

pub type U326 = Size<326>;

pub type U327 = Size<327>;

pub type U328 = Size<328>;

pub type U329 = Size<329>;

pub type U330 = Size<330>;

pub type U331 = Size<331>;

pub type U332 = Size<332>;

pub type U333 = Size<333>;

pub type U334 = Size<334>;

pub type U335 = Size<335>;

pub type U336 = Size<336>;

pub type U337 = Size<337>;

pub type U338 = Size<338>;

pub type U339 = Size<339>;

pub type U340 = Size<340>;

pub type U341 = Size<341>;

pub type U342 = Size<342>;

pub type U343 = Size<343>;

pub type U344 = Size<344>;

pub type U345 = Size<345>;

pub type U346 = Size<346>;

pub type U347 = Size<347>;

pub type U348 = Size<348>;

pub type U349 = Size<349>;

pub type U350 = Size<350>;

pub type U351 = Size<351>;

pub type U352 = Size<352>;

pub type U353 = Size<353>;

pub type U354 = Size<354>;

pub type U355 = Size<355>;

pub type U356 = Size<356>;

pub type U357 = Size<357>;

pub type U358 = Size<358>;

pub type U359 = Size<359>;

pub type U360 = Size<360>;

pub type U361 = Size<361>;

pub type U362 = Size<362>;

pub type U363 = Size<363>;

pub type U364 = Size<364>;

pub type U365 = Size<365>;

pub type U366 = Size<366>;

pub type U367 = Size<367>;

pub type U368 = Size<368>;

pub type U369 = Size<369>;

pub type U370 = Size<370>;

pub type U371 = Size<371>;

pub type U372 = Size<372>;

pub type U373 = Size<373>;

pub type U374 = Size<374>;

pub type U375 = Size<375>;

pub type U376 = Size<376>;

pub type U377 = Size<377>;

pub type U378 = Size<378>;

pub type U379 = Size<379>;

pub type U380 = Size<380>;

pub type U381 = Size<381>;

pub type U382 = Size<382>;

pub type U383 = Size<383>;

pub type U384 = Size<384>;

pub type U385 = Size<385>;

pub type U386 = Size<386>;

pub type U387 = Size<387>;

pub type U388 = Size<388>;

pub type U389 = Size<389>;

pub type U390 = Size<390>;

pub type U391 = Size<391>;

pub type U392 = Size<392>;

pub type U393 = Size<393>;

pub type U394 = Size<394>;

pub type U395 = Size<395>;

pub type U396 = Size<396>;

pub type U397 = Size<397>;

pub type U398 = Size<398>;

pub type U399 = Size<399>;
