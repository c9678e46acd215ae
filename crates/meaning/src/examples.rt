// Six small pictures: that each list of commands means its picture is proved by computing it.
ghost use Rattle.meaning.specs.Examples.{ExamplePictures};

pub fn example_pictures()
    ensures { ExamplePictures }
{}
