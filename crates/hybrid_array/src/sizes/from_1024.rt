//! Names for the lengths from 1024 to 2047.

use crate::Size;

pub type U1024 = Size<1024>;

pub type U1039 = Size<1039>;

pub type U1040 = Size<1040>;

pub type U1056 = Size<1056>;

pub type U1072 = Size<1072>;

pub type U1088 = Size<1088>;

pub type U1104 = Size<1104>;

pub type U1120 = Size<1120>;

pub type U1124 = Size<1124>;

pub type U1136 = Size<1136>;

pub type U1152 = Size<1152>;

pub type U1153 = Size<1153>;

pub type U1156 = Size<1156>;

pub type U1158 = Size<1158>;

pub type U1168 = Size<1168>;

pub type U1184 = Size<1184>;

pub type U1200 = Size<1200>;

pub type U1216 = Size<1216>;

pub type U1232 = Size<1232>;

pub type U1248 = Size<1248>;

pub type U1249 = Size<1249>;

pub type U1252 = Size<1252>;

pub type U1264 = Size<1264>;

pub type U1280 = Size<1280>;

pub type U1296 = Size<1296>;

pub type U1312 = Size<1312>;

pub type U1322 = Size<1322>;

pub type U1328 = Size<1328>;

pub type U1344 = Size<1344>;

pub type U1349 = Size<1349>;

pub type U1360 = Size<1360>;

pub type U1376 = Size<1376>;

pub type U1392 = Size<1392>;

pub type U1408 = Size<1408>;

pub type U1424 = Size<1424>;

pub type U1440 = Size<1440>;

pub type U1455 = Size<1455>;

pub type U1456 = Size<1456>;

pub type U1472 = Size<1472>;

pub type U1488 = Size<1488>;

pub type U1498 = Size<1498>;

pub type U1504 = Size<1504>;

pub type U1505 = Size<1505>;

pub type U1518 = Size<1518>;

pub type U1520 = Size<1520>;

pub type U1530 = Size<1530>;

pub type U1536 = Size<1536>;

pub type U1552 = Size<1552>;

pub type U1568 = Size<1568>;

pub type U1584 = Size<1584>;

pub type U1600 = Size<1600>;

pub type U1616 = Size<1616>;

pub type U1623 = Size<1623>;

pub type U1632 = Size<1632>;

pub type U1648 = Size<1648>;

pub type U1658 = Size<1658>;

pub type U1664 = Size<1664>;

pub type U1665 = Size<1665>;

pub type U1680 = Size<1680>;

pub type U1696 = Size<1696>;

pub type U1712 = Size<1712>;

pub type U1728 = Size<1728>;

pub type U1744 = Size<1744>;

pub type U1760 = Size<1760>;

pub type U1763 = Size<1763>;

pub type U1776 = Size<1776>;

pub type U1792 = Size<1792>;

pub type U1808 = Size<1808>;

pub type U1824 = Size<1824>;

pub type U1840 = Size<1840>;

pub type U1847 = Size<1847>;

pub type U1856 = Size<1856>;

pub type U1872 = Size<1872>;

pub type U1888 = Size<1888>;

pub type U1904 = Size<1904>;

pub type U1920 = Size<1920>;

pub type U1936 = Size<1936>;

pub type U1952 = Size<1952>;

pub type U1968 = Size<1968>;

pub type U1984 = Size<1984>;

pub type U1999 = Size<1999>;

pub type U2000 = Size<2000>;

pub type U2016 = Size<2016>;

pub type U2032 = Size<2032>;

pub type U2047 = Size<2047>;
