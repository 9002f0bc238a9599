//! Names for the lengths from 3072 to 4080.

use crate::Size;

pub type U3072 = Size<3072>;

pub type U3088 = Size<3088>;

pub type U3104 = Size<3104>;

pub type U3120 = Size<3120>;

pub type U3136 = Size<3136>;

pub type U3152 = Size<3152>;

pub type U3168 = Size<3168>;

pub type U3184 = Size<3184>;

pub type U3200 = Size<3200>;

pub type U3216 = Size<3216>;

pub type U3232 = Size<3232>;

pub type U3248 = Size<3248>;

pub type U3264 = Size<3264>;

pub type U3280 = Size<3280>;

pub type U3296 = Size<3296>;

pub type U3309 = Size<3309>;

pub type U3312 = Size<3312>;

pub type U3328 = Size<3328>;

pub type U3344 = Size<3344>;

pub type U3360 = Size<3360>;

pub type U3376 = Size<3376>;

pub type U3392 = Size<3392>;

pub type U3408 = Size<3408>;

pub type U3424 = Size<3424>;

pub type U3440 = Size<3440>;

pub type U3456 = Size<3456>;

pub type U3472 = Size<3472>;

pub type U3488 = Size<3488>;

pub type U3504 = Size<3504>;

pub type U3520 = Size<3520>;

pub type U3536 = Size<3536>;

pub type U3552 = Size<3552>;

pub type U3568 = Size<3568>;

pub type U3584 = Size<3584>;

pub type U3600 = Size<3600>;

pub type U3616 = Size<3616>;

pub type U3632 = Size<3632>;

pub type U3648 = Size<3648>;

pub type U3664 = Size<3664>;

pub type U3680 = Size<3680>;

pub type U3696 = Size<3696>;

pub type U3712 = Size<3712>;

pub type U3728 = Size<3728>;

pub type U3744 = Size<3744>;

pub type U3760 = Size<3760>;

pub type U3776 = Size<3776>;

pub type U3792 = Size<3792>;

pub type U3808 = Size<3808>;

pub type U3824 = Size<3824>;

pub type U3840 = Size<3840>;

pub type U3856 = Size<3856>;

pub type U3872 = Size<3872>;

pub type U3888 = Size<3888>;

pub type U3904 = Size<3904>;

pub type U3920 = Size<3920>;

pub type U3936 = Size<3936>;

pub type U3952 = Size<3952>;

pub type U3968 = Size<3968>;

pub type U3984 = Size<3984>;

pub type U4000 = Size<4000>;

pub type U4016 = Size<4016>;

pub type U4032 = Size<4032>;

pub type U4048 = Size<4048>;

pub type U4064 = Size<4064>;

pub type U4080 = Size<4080>;
