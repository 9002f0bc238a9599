//! Names for the lengths from 400 to 479.

use crate::Size;

pub type U400 = Size<400>;

pub type U401 = Size<401>;

pub type U402 = Size<402>;

pub type U403 = Size<403>;

pub type U404 = Size<404>;

pub type U405 = Size<405>;

pub type U406 = Size<406>;

pub type U407 = Size<407>;

pub type U408 = Size<408>;

pub type U409 = Size<409>;

pub type U410 = Size<410>;

pub type U411 = Size<411>;

pub type U412 = Size<412>;

pub type U413 = Size<413>;

pub type U414 = Size<414>;

pub type U415 = Size<415>;

pub type U416 = Size<416>;

pub type U417 = Size<417>;

pub type U418 = Size<418>;

pub type U419 = Size<419>;

pub type U420 = Size<420>;

pub type U421 = Size<421>;

pub type U422 = Size<422>;

pub type U423 = Size<423>;

pub type U424 = Size<424>;

pub type U425 = Size<425>;

pub type U426 = Size<426>;

pub type U427 = Size<427>;

pub type U428 = Size<428>;

pub type U429 = Size<429>;

pub type U430 = Size<430>;

pub type U431 = Size<431>;

pub type U432 = Size<432>;

pub type U433 = Size<433>;

pub type U434 = Size<434>;

pub type U435 = Size<435>;

pub type U436 = Size<436>;

pub type U437 = Size<437>;

pub type U438 = Size<438>;

pub type U439 = Size<439>;

pub type U440 = Size<440>;

pub type U441 = Size<441>;

pub type U442 = Size<442>;

pub type U443 = Size<443>;

pub type U444 = Size<444>;

pub type U445 = Size<445>;

pub type U446 = Size<446>;

pub type U447 = Size<447>;

pub type U448 = Size<448>;

pub type U449 = Size<449>;

pub type U450 = Size<450>;

pub type U451 = Size<451>;

pub type U452 = Size<452>;

pub type U453 = Size<453>;

pub type U454 = Size<454>;

pub type U455 = Size<455>;

pub type U456 = Size<456>;

pub type U457 = Size<457>;

pub type U458 = Size<458>;

pub type U459 = Size<459>;

pub type U460 = Size<460>;

pub type U461 = Size<461>;

pub type U462 = Size<462>;

pub type U463 = Size<463>;

pub type U464 = Size<464>;

pub type U465 = Size<465>;

pub type U466 = Size<466>;

pub type U467 = Size<467>;

pub type U468 = Size<468>;

pub type U469 = Size<469>;

pub type U470 = Size<470>;

pub type U471 = Size<471>;

pub type U472 = Size<472>;

pub type U473 = Size<473>;

pub type U474 = Size<474>;

pub type U475 = Size<475>;

pub type U476 = Size<476>;

pub type U477 = Size<477>;

pub type U478 = Size<478>;

pub type U479 = Size<479>;
