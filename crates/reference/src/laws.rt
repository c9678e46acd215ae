// The laws about whole pictures: each function promises some, for all values. They compute nothing: without the proof of its law none is built.
ghost use Rattle.reference.specs.Laws.{RegionIsWhole, PicturesCut, ManyPictures};

// Where each dot of the picture is as the commands mean it, the whole lists are.
pub fn region_is_whole()
    ensures { RegionIsWhole }
{}

// Pictures that lie one after another are cut out again, as many as there are shows.
pub fn pictures_are_cut()
    ensures cut { PicturesCut }
    ensures many { ManyPictures }
{}
