//! Names for the lengths from 2048 to 3059.

use crate::Size;

pub type U2048 = Size<2048>;

pub type U2064 = Size<2064>;

pub type U2067 = Size<2067>;

pub type U2080 = Size<2080>;

pub type U2096 = Size<2096>;

pub type U2112 = Size<2112>;

pub type U2128 = Size<2128>;

pub type U2144 = Size<2144>;

pub type U2160 = Size<2160>;

pub type U2176 = Size<2176>;

pub type U2180 = Size<2180>;

pub type U2192 = Size<2192>;

pub type U2208 = Size<2208>;

pub type U2224 = Size<2224>;

pub type U2240 = Size<2240>;

pub type U2241 = Size<2241>;

pub type U2254 = Size<2254>;

pub type U2256 = Size<2256>;

pub type U2272 = Size<2272>;

pub type U2288 = Size<2288>;

pub type U2304 = Size<2304>;

pub type U2320 = Size<2320>;

pub type U2336 = Size<2336>;

pub type U2352 = Size<2352>;

pub type U2368 = Size<2368>;

pub type U2384 = Size<2384>;

pub type U2400 = Size<2400>;

pub type U2416 = Size<2416>;

pub type U2417 = Size<2417>;

pub type U2420 = Size<2420>;

pub type U2432 = Size<2432>;

pub type U2448 = Size<2448>;

pub type U2464 = Size<2464>;

pub type U2480 = Size<2480>;

pub type U2496 = Size<2496>;

pub type U2512 = Size<2512>;

pub type U2528 = Size<2528>;

pub type U2544 = Size<2544>;

pub type U2560 = Size<2560>;

pub type U2576 = Size<2576>;

pub type U2592 = Size<2592>;

pub type U2608 = Size<2608>;

pub type U2624 = Size<2624>;

pub type U2640 = Size<2640>;

pub type U2656 = Size<2656>;

pub type U2672 = Size<2672>;

pub type U2688 = Size<2688>;

pub type U2704 = Size<2704>;

pub type U2720 = Size<2720>;

pub type U2736 = Size<2736>;

pub type U2752 = Size<2752>;

pub type U2768 = Size<2768>;

pub type U2784 = Size<2784>;

pub type U2800 = Size<2800>;

pub type U2816 = Size<2816>;

pub type U2832 = Size<2832>;

pub type U2848 = Size<2848>;

pub type U2864 = Size<2864>;

pub type U2880 = Size<2880>;

pub type U2896 = Size<2896>;

pub type U2912 = Size<2912>;

pub type U2928 = Size<2928>;

pub type U2944 = Size<2944>;

pub type U2960 = Size<2960>;

pub type U2976 = Size<2976>;

pub type U2992 = Size<2992>;

pub type U3008 = Size<3008>;

pub type U3024 = Size<3024>;

pub type U3040 = Size<3040>;

pub type U3056 = Size<3056>;

pub type U3059 = Size<3059>;
