//! Names for the lengths from 480 to 1008.

use crate::Size;

pub type U480 = Size<480>;

pub type U481 = Size<481>;

pub type U482 = Size<482>;

pub type U483 = Size<483>;

pub type U484 = Size<484>;

pub type U485 = Size<485>;

pub type U486 = Size<486>;

pub type U487 = Size<487>;

pub type U488 = Size<488>;

pub type U489 = Size<489>;

pub type U490 = Size<490>;

pub type U491 = Size<491>;

pub type U492 = Size<492>;

pub type U493 = Size<493>;

pub type U494 = Size<494>;

pub type U495 = Size<495>;

pub type U496 = Size<496>;

pub type U497 = Size<497>;

pub type U498 = Size<498>;

pub type U499 = Size<499>;

pub type U500 = Size<500>;

pub type U501 = Size<501>;

pub type U502 = Size<502>;

pub type U503 = Size<503>;

pub type U504 = Size<504>;

pub type U505 = Size<505>;

pub type U506 = Size<506>;

pub type U507 = Size<507>;

pub type U508 = Size<508>;

pub type U509 = Size<509>;

pub type U510 = Size<510>;

pub type U511 = Size<511>;

pub type U512 = Size<512>;

pub type U513 = Size<513>;

pub type U521 = Size<521>;

pub type U522 = Size<522>;

pub type U528 = Size<528>;

pub type U536 = Size<536>;

pub type U544 = Size<544>;

pub type U560 = Size<560>;

pub type U568 = Size<568>;

pub type U576 = Size<576>;

pub type U592 = Size<592>;

pub type U608 = Size<608>;

pub type U624 = Size<624>;

pub type U640 = Size<640>;

pub type U656 = Size<656>;

pub type U672 = Size<672>;

pub type U688 = Size<688>;

pub type U704 = Size<704>;

pub type U720 = Size<720>;

pub type U736 = Size<736>;

pub type U749 = Size<749>;

pub type U752 = Size<752>;

pub type U768 = Size<768>;

pub type U781 = Size<781>;

pub type U784 = Size<784>;

pub type U800 = Size<800>;

pub type U816 = Size<816>;

pub type U832 = Size<832>;

pub type U848 = Size<848>;

pub type U864 = Size<864>;

pub type U877 = Size<877>;

pub type U880 = Size<880>;

pub type U896 = Size<896>;

pub type U897 = Size<897>;

pub type U912 = Size<912>;

pub type U928 = Size<928>;

pub type U944 = Size<944>;

pub type U960 = Size<960>;

pub type U976 = Size<976>;

pub type U992 = Size<992>;

pub type U994 = Size<994>;

pub type U1008 = Size<1008>;
