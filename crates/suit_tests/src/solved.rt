//! Questions of many shapes, each with an answer that another program found.

/// Questions and answers: the name of the pair, the question's text, and the answer's.
pub const SOLVED: [(&str, &str, &str); 17] = [
    (
        "a9-void",
        "north A9\nsouth -\nstart N\nentries 0 0\ngoal tricks\nend\n",
        "answer 1\nvalue 1/1\nplan 1 0\ndefence 1 0\nend\n",
    ),
    (
        "ajt-432",
        "north AJT\nsouth 432\ngoal 2\nend\n",
        "answer 1\nvalue 19/25\nplan 1 4\nat : S4 1\nat S4 9 : J 1\nat S4 9 J K : S4 1\n\
         at S4 9 J K S4 9 : J 1\ndefence 1 82\nwest 0 0 at NA : 9 27132\n\
         west 0 0 at NJ K 4 - NA : 9 27132\nwest 0 0 at NJ K 4 - S4 - A : 9 27132\n\
         west 0 0 at S4 - A : 9 27132\nwest 0 0 at S4 - J K NA : 9 27132\n\
         west 0 0 at S4 - J K S4 - A : 9 27132\nwest 0 1 at NA : 9 251940\n\
         west 0 1 at NJ K 4 9 NA : 9 251940\nwest 0 1 at NJ K 4 9 S4 - A : 9 251940\n\
         west 0 1 at S4 9 A : 9 251940\nwest 0 1 at S4 9 J K NA : 9 251940\n\
         west 0 1 at S4 9 J K S4 - A : 9 251940\nwest 0 2 at NA : 9 755820\n\
         west 0 2 at NJ K 4 9 NA : 9 755820\nwest 0 2 at NJ K 4 9 S4 9 A : 9 755820\n\
         west 0 2 at S4 9 A : 9 755820\nwest 0 3 at NA : 9 923780\nwest 0 3 at NJ K 4 9 NA : 9 923780\n\
         west 0 3 at NJ K 4 9 S4 9 A : 9 923780\nwest 0 3 at S4 9 A : 9 923780\n\
         west 0 4 at NA : 9 461890\nwest 0 4 at NJ K 4 9 NA : 9 461890\n\
         west 0 4 at NJ K 4 9 S4 9 A : 9 461890\nwest 0 4 at S4 9 A : 9 461890\n\
         west 0 4 at S4 9 J K NA : 9 461890\nwest 0 4 at S4 9 J K S4 9 A : 9 461890\n\
         west 1 1 at NA : 9 755820\nwest 1 1 at NA 9 4 : 9 755820\nwest 1 1 at NA 9 4 9 NJ : 9 755820\n\
         west 1 1 at NJ : 9 755820\nwest 1 1 at NJ 9 4 K NA : 9 755820\n\
         west 1 1 at NJ 9 4 K S4 9 A : 9 755820\nwest 1 2 at NA : 9 1847560\n\
         west 1 2 at NA 9 4 : 9 1847560\nwest 1 2 at NA 9 4 9 NJ K 4 : 9 1847560\n\
         west 1 2 at NJ K 4 : 9 1847560\nwest 1 2 at NJ K 4 9 NA 9 4 : 9 1847560\n\
         west 1 2 at NJ K 4 9 S4 : 9 1847560\nwest 1 2 at S4 : 9 1847560\n\
         west 1 2 at S4 9 A : 9 1847560\nwest 1 2 at S4 9 A 9 NJ K 4 : 9 1847560\n\
         west 1 2 at S4 9 J K NA 9 4 : 9 1847560\nwest 1 2 at S4 9 J K S4 : 9 1847560\n\
         west 1 3 at NA : 9 1847560\nwest 1 3 at NA 9 4 : 9 1847560\n\
         west 1 3 at NA 9 4 9 NJ K 4 : 9 1847560\nwest 1 3 at NJ K 4 : 9 1847560\n\
         west 1 3 at NJ K 4 9 NA 9 4 : 9 1847560\nwest 1 3 at NJ K 4 9 S4 : 9 1847560\n\
         west 1 3 at S4 : 9 1847560\nwest 1 3 at S4 9 A : 9 1847560\n\
         west 1 3 at S4 9 A 9 NJ K 4 : 9 1847560\nwest 1 3 at S4 9 J K NA 9 4 : 9 1847560\n\
         west 1 4 at NA : 9 755820\nwest 1 4 at NA 9 4 : 9 755820\n\
         west 1 4 at NA 9 4 9 NJ K 4 : 9 755820\nwest 1 4 at NJ K 4 : 9 755820\n\
         west 1 4 at NJ K 4 9 NA 9 4 : 9 755820\nwest 1 4 at NJ K 4 9 S4 : 9 755820\n\
         west 1 4 at S4 : 9 755820\nwest 1 4 at S4 9 A : 9 755820\n\
         west 1 4 at S4 9 A 9 NJ K 4 : 9 755820\nwest 1 4 at S4 9 J K NA 9 4 : 9 755820\n\
         west 1 5 at NJ K 4 : 9 100776\nwest 1 5 at NJ K 4 9 NA - 4 : 9 100776\n\
         west 1 5 at NJ K 4 9 S4 : 9 100776\nwest 2 1 at NA 9 4 : 9 461890\n\
         west 2 1 at NJ 9 4 K NA 9 4 : 9 461890\nwest 2 1 at NJ 9 4 K S4 : 9 461890\n\
         west 2 1 at S4 : 9 461890\nwest 2 2 at NA 9 4 : 9 923780\n\
         west 2 2 at NJ 9 4 K NA 9 4 : 9 923780\nwest 2 2 at NJ 9 4 K S4 : 9 923780\n\
         west 2 2 at S4 : 9 923780\nwest 2 3 at NA 9 4 : 9 755820\nwest 2 3 at S4 : 9 755820\n\
         west 2 4 at NA 9 4 : 9 251940\nwest 2 4 at NJ 9 4 K NA - 4 : 9 251940\n\
         west 2 4 at NJ 9 4 K S4 : 9 251940\nwest 2 4 at S4 : 9 251940\nwest 2 5 at NA - 4 : 9 27132\n\
         west 2 5 at S4 : 9 27132\nend\n",
    ),
    (
        "akt9-j32",
        "north AKT9\nsouth J32\ngoal 4\nentries 1 1\nend\n",
        "answer 1\nvalue 1649/3220\nplan 1 12\nat NA 8 : 3 1\nat NA 8 3 8 : SJ 1\n\
         at NA 8 3 8 SJ 8 : T 1\nat NA 8 3 8 SJ 8 T 8 : S3 1\nat NA 8 3 8 SJ 8 T 8 S3 8 : T 1\n\
         at NA 8 3 8 SJ 8 T - : S3 1\nat NA 8 3 8 SJ 8 T - S3 8 : T 1\nat NA - : 3 1\n\
         at NA - 3 8 : SJ 1\nat NA - 3 8 SJ 8 : T 1\nat NA - 3 8 SJ 8 T - : S3 1\n\
         at NA - 3 8 SJ 8 T - S3 8 : T 1\ndefence 1 72\nwest 0 0 at NA : 8 77520\n\
         west 0 0 at NA 8 J - NA : 8 77520\nwest 0 0 at NA 8 J - S3 - A : 8 77520\n\
         west 0 0 at NA 8 3 - NA : 8 77520\nwest 0 0 at NA 8 3 - SJ - A : 8 77520\n\
         west 0 0 at NA 8 3 - S3 - A : 8 77520\nwest 0 0 at S3 - A : 8 77520\n\
         west 0 0 at S3 - A 8 NA : 8 77520\nwest 0 0 at S3 - A 8 SJ - A : 8 77520\n\
         west 0 0 at S3 - A 8 S3 - A : 8 77520\nwest 0 1 at NA : 8 629850\n\
         west 0 1 at NA 8 J 8 NA : 8 629850\nwest 0 1 at NA 8 3 8 NA : 8 629850\n\
         west 0 1 at NA 8 3 8 SJ - A : 8 629850\nwest 0 1 at S3 8 A : 8 629850\n\
         west 0 1 at S3 8 A 8 NA : 8 629850\nwest 0 1 at S3 8 A 8 SJ - A : 8 629850\n\
         west 0 2 at NA : 8 1679600\nwest 0 2 at NA 8 J 8 NA : Q 797810 8 881790\n\
         west 0 2 at NA 8 J 8 S3 8 A : 8 1679600\nwest 0 2 at NA 8 3 8 NA : 8 1679600\n\
         west 0 2 at NA 8 3 8 SJ 8 A : 8 1679600\nwest 0 2 at NA 8 3 8 S3 8 A : 8 1679600\n\
         west 0 2 at SJ 8 A : 8 1679600\nwest 0 2 at SJ 8 A 8 NA : 8 1679600\n\
         west 0 2 at SJ 8 A 8 S3 8 A : 8 1679600\nwest 0 2 at S3 8 A : 8 1679600\n\
         west 0 2 at S3 8 A 8 NA : 8 1679600\nwest 0 2 at S3 8 A 8 SJ 8 A : 8 1679600\n\
         west 0 2 at S3 8 A 8 S3 8 A : 8 1679600\nwest 0 3 at NA : 8 1847560\n\
         west 0 3 at NA 8 J 8 NA : 8 1847560\nwest 0 3 at NA 8 J 8 S3 8 A : 8 1847560\n\
         west 0 3 at NA 8 3 8 NA : 8 1847560\nwest 0 3 at NA 8 3 8 SJ 8 A : 8 1847560\n\
         west 0 3 at NA 8 3 8 S3 8 A : 8 1847560\nwest 0 3 at SJ 8 A : 8 1847560\n\
         west 0 3 at SJ 8 A 8 NA : 8 1847560\nwest 0 3 at SJ 8 A 8 S3 8 A : 8 1847560\n\
         west 0 3 at S3 8 A : 8 1847560\nwest 0 3 at S3 8 A 8 NA : 8 1847560\n\
         west 0 3 at S3 8 A 8 SJ 8 A : 8 1847560\nwest 0 3 at S3 8 A 8 S3 8 A : 8 1847560\n\
         west 0 4 at NA : 8 839800\nwest 0 4 at SJ 8 A : 8 839800\nwest 0 4 at S3 8 A : 8 839800\n\
         west 1 2 at NA 8 J : 8 1847560\nwest 1 2 at NA 8 J 8 NA 8 3 : 8 1847560\n\
         west 1 2 at SJ : Q 300390 8 1547170\nwest 1 2 at SJ 8 A 8 NA 8 3 : 8 1547170\n\
         west 1 2 at SJ 8 A 8 S3 : Q 707370 8 839800\nwest 1 2 at S3 : Q 1007760 8 839800\n\
         west 1 2 at S3 8 A 8 NA 8 J : 8 839800\nwest 1 2 at S3 8 A 8 NA 8 3 : 8 839800\n\
         west 1 2 at S3 8 A 8 SJ : 8 839800\nwest 1 2 at S3 8 A 8 S3 : 8 839800\n\
         west 1 3 at NA 8 J : 8 1679600\nwest 1 3 at NA 8 J 8 S3 : 8 1679600\n\
         west 1 3 at NA 8 J 8 S3 8 T 8 NA - 3 : 8 1679600\nwest 1 3 at NA 8 3 : Q 209950 8 1469650\n\
         west 1 3 at NA 8 3 8 NA 8 J : Q 629850 8 839800\n\
         west 1 3 at NA 8 3 8 NA 8 3 : Q 629850 8 839800\nwest 1 3 at NA 8 3 8 SJ : 8 1469650\n\
         west 1 3 at NA 8 3 8 SJ 8 T 8 NA - 3 : 8 1469650\nwest 1 3 at NA 8 3 8 S3 : 8 1469650\n\
         west 1 3 at NA 8 3 8 S3 8 T 8 NA - J : 8 1469650\nwest 1 3 at SJ : Q 972230 8 707370\n\
         west 1 3 at SJ 8 A 8 S3 : 8 707370\nwest 1 3 at SJ 8 A 8 S3 8 T 8 NA - 3 : 8 707370\n\
         west 1 3 at S3 : Q 1049750 8 629850\nwest 1 3 at S3 8 A 8 S3 : 8 629850\n\
         west 1 3 at S3 8 A 8 S3 8 T 8 NA - J : 8 629850\nend\n",
    ),
    (
        "aq-32-drop-or-finesse",
        "north AQ\nsouth 32\nstart S\nentries 0 0\ngoal 2\nend\n",
        "answer 1\nvalue 1/2\nplan 1 1\nat S3 J : Q 1\ndefence 1 9\nwest 0 0 at S3 - A : J 2380\n\
         west 0 1 at S3 J A : J 49504\nwest 0 2 at S3 J A : J 346528\nwest 0 3 at S3 J A : J 1089088\n\
         west 0 4 at S3 J A : J 1701700\nwest 0 5 at S3 J A : J 1361360\nwest 0 6 at S3 J A : J 544544\n\
         west 0 7 at S3 J A : J 99008\nwest 1 1 at S3 : J 99008\nend\n",
    ),
    (
        "aq-32-free",
        "north AQ\nsouth 32\ngoal tricks\nend\n",
        "answer 1\nvalue 3/2\nplan 1 2\nat : S3 1\nat S3 J : Q 1\ndefence 1 17\n\
         west 0 0 at S3 - A : J 2380\nwest 0 1 at NA : J 49504\nwest 0 1 at S3 J A : J 49504\n\
         west 0 2 at NA : J 346528\nwest 0 2 at S3 J A : J 346528\nwest 0 3 at NA : J 1089088\n\
         west 0 3 at S3 J A : J 1089088\nwest 0 4 at NA : J 1701700\nwest 0 4 at S3 J A : J 1701700\n\
         west 0 5 at NA : J 1361360\nwest 0 5 at S3 J A : J 1361360\nwest 0 6 at NA : K 90440 J 454104\n\
         west 0 6 at S3 J A : J 544544\nwest 0 7 at NA : J 99008\nwest 0 7 at S3 J A : J 99008\n\
         west 1 1 at NA J 3 : J 99008\nwest 1 1 at S3 : K 92820 J 6188\nend\n",
    ),
    (
        "aq-32-tricks",
        "north AQ\nsouth 32\nstart S\nentries 0 0\ngoal tricks\nend\n",
        "answer 1\nvalue 3/2\nplan 1 1\nat S3 J : Q 1\ndefence 1 9\nwest 0 0 at S3 - A : J 2380\n\
         west 0 1 at S3 J A : J 49504\nwest 0 2 at S3 J A : J 346528\nwest 0 3 at S3 J A : J 1089088\n\
         west 0 4 at S3 J A : J 1701700\nwest 0 5 at S3 J A : J 1361360\n\
         west 0 6 at S3 J A : K 92820 J 451724\nwest 0 7 at S3 J A : J 99008\nwest 1 1 at S3 : J 99008\n\
         end\n",
    ),
    (
        "divide-1-1",
        "north AJT98765432\nsouth -\nstart N\ngoal 11\nend\n",
        "answer 1\nvalue 13/25\nplan 1 0\ndefence 1 0\nend\n",
    ),
    (
        "east-kq2",
        "north AJT987654\nsouth 3\nstart S\nentries 0 0\ngoal 8\nend\n",
        "answer 1\nvalue 89/100\nplan 1 1\nat S3 2 : J 1\ndefence 1 3\nwest 0 0 at S3 - A : 2 1144066\n\
         west 0 0 at S3 - J K NA : 2 1144066\nwest 2 1 at S3 : 2 1144066\nend\n",
    ),
    (
        "east-kq2-nine",
        "north AJT987654\nsouth 3\nstart S\nentries 0 0\ngoal 9\nend\n",
        "answer 1\nvalue 0/1\nplan 1 0\ndefence 1 2\nwest 1 0 at S3 K A : 2 2704156\n\
         west 1 1 at S3 : 2 2704156\nend\n",
    ),
    (
        "falsecards",
        "north AKT9876\nsouth 54\nstart S\nentries 0 1\ngoal 7\nend\n",
        "answer 1\nvalue 533/1150\nplan 1 2\nat S5 3 A Q : S5 1\nat S5 3 A Q S5 3 : T 1\ndefence 1 14\n\
         west 0 0 at S5 - A Q NA : 3 497420\nwest 0 0 at S5 - A Q S5 - A : 3 497420\n\
         west 0 1 at S5 3 A Q NA : 3 1293292\nwest 0 1 at S5 3 A Q S5 - A : 3 1293292\n\
         west 1 0 at S5 Q A : 3 1293292\nwest 1 0 at S5 Q A 3 NA : 3 1293292\n\
         west 1 0 at S5 Q A 3 S5 - A : 3 1293292\nwest 1 2 at S5 : 3 1293292\n\
         west 1 2 at S5 3 A Q NA - 5 : 3 1293292\nwest 1 2 at S5 3 A Q S5 : Q 587860 3 705432\n\
         west 2 1 at S5 : 3 1293292\nwest 2 2 at S5 Q A - NA - 5 : 3 497420\n\
         west 2 2 at S5 Q A - S5 : 3 497420\nwest 2 2 at S5 Q A - S5 3 T - NA - - : 3 497420\nend\n",
    ),
    (
        "k9-42-known",
        "north K9\nsouth 42\nvacant 5 11\nwest 2 5\ngoal 1\nentries 1 0\nend\n",
        "answer 1\nvalue 95/288\nplan 1 2\nat : S4 1\nat S4 A : 9 1\ndefence 1 67\n\
         west 0 0 1 1 at N9 : Q 140\nwest 0 0 1 1 at S4 8 9 : Q 140\nwest 0 0 1 1 at S2 8 9 : Q 140\n\
         west 0 0 2 0 at N9 : Q 210\nwest 0 0 2 0 at S4 8 9 : Q 210\nwest 0 0 2 0 at S2 8 9 : Q 210\n\
         west 0 0 2 1 at N9 : Q 126\nwest 0 0 2 1 at S4 8 9 : A 111 Q 15\n\
         west 0 0 2 1 at S2 8 9 : A 111 Q 15\nwest 0 0 3 0 at N9 : Q 84\nwest 0 0 3 0 at S4 8 9 : Q 84\n\
         west 0 0 3 0 at S2 8 9 : Q 84\nwest 0 0 3 1 at N9 : Q 28\nwest 0 0 4 0 at N9 : Q 7\n\
         west 0 0 4 0 at S4 8 9 : Q 7\nwest 0 0 4 0 at S2 8 9 : Q 7\nwest 0 0 4 1 at N9 : Q 1\n\
         west 0 1 0 1 at N9 : Q 105\nwest 0 1 0 1 at S4 Q 9 : Q 105\nwest 0 1 0 1 at S2 Q 9 : Q 105\n\
         west 0 1 1 0 at N9 : Q 420\nwest 0 1 1 0 at S4 Q 9 : Q 420\nwest 0 1 1 0 at S2 Q 9 : Q 420\n\
         west 0 1 1 1 at N9 : Q 252\nwest 0 1 1 1 at S4 Q 9 : Q 252\nwest 0 1 1 1 at S2 Q 9 : Q 252\n\
         west 0 1 2 0 at N9 : Q 378\nwest 0 1 2 0 at S4 Q 9 : Q 378\nwest 0 1 2 0 at S2 Q 9 : Q 378\n\
         west 0 1 2 1 at N9 : Q 126\nwest 0 1 2 1 at S4 Q 9 : Q 126\nwest 0 1 2 1 at S2 Q 9 : Q 126\n\
         west 0 1 3 0 at N9 : Q 84\nwest 0 1 3 0 at S4 Q 9 : Q 84\nwest 0 1 3 0 at S2 Q 9 : Q 84\n\
         west 0 1 3 1 at N9 : Q 12\nwest 0 1 3 1 at S4 Q 9 : Q 12\nwest 0 1 3 1 at S2 Q 9 : Q 12\n\
         west 0 1 4 0 at N9 : Q 3\nwest 0 1 4 0 at S4 Q 9 : Q 3\nwest 0 1 4 0 at S2 Q 9 : Q 3\n\
         west 0 2 0 0 at N9 : Q 105\nwest 0 2 0 0 at S4 Q 9 : Q 105\nwest 0 2 0 0 at S2 Q 9 : Q 105\n\
         west 0 2 0 1 at N9 : Q 63\nwest 0 2 0 1 at S4 Q 9 : Q 63\nwest 0 2 0 1 at S2 Q 9 : Q 63\n\
         west 0 2 1 0 at N9 : Q 252\nwest 0 2 1 0 at S4 Q 9 : Q 252\nwest 0 2 1 0 at S2 Q 9 : Q 252\n\
         west 0 2 1 1 at N9 : Q 84\nwest 0 2 1 1 at S4 Q 9 : Q 84\nwest 0 2 1 1 at S2 Q 9 : Q 84\n\
         west 0 2 2 0 at N9 : Q 126\nwest 0 2 2 0 at S4 Q 9 : A 9 Q 117\n\
         west 0 2 2 0 at S2 Q 9 : A 9 Q 117\nwest 0 2 2 1 at N9 : Q 18\nwest 0 2 3 0 at N9 : Q 12\n\
         west 0 3 0 0 at N9 : 8 21\nwest 0 3 0 1 at N9 : 8 7\nwest 0 3 1 0 at N9 : 8 28\n\
         west 0 3 1 1 at N9 : 8 4\nwest 0 3 2 0 at N9 : 8 6\nwest 1 0 1 0 at S4 : 8 140\n\
         west 1 0 1 0 at S2 : 8 140\nwest 1 1 0 0 at S4 : Q 105\nwest 1 1 0 0 at S2 : Q 105\nend\n",
    ),
    (
        "kj-2",
        "north KJ\nsouth 2\nstart N\nregain S\nentries 0 1\ngoal tricks\nend\n",
        "answer 1\nvalue 0/1\nplan 1 0\ndefence 1 0\nend\n",
    ),
    (
        "kq-2-in-front",
        "north AQJT987654\nsouth 3\nstart S\nentries 0 0\ngoal 10\nend\n",
        "answer 1\nvalue 13/25\nplan 1 0\ndefence 1 2\nwest 0 0 at S3 - A : 2 2496144\n\
         west 1 1 at S3 : 2 2496144\nend\n",
    ),
    (
        "kq2-543",
        "north KQ2\nsouth 543\ngoal tricks\nend\n",
        "answer 1\nvalue 3/2\nplan 1 6\nat : S5 1\nat S5 A : 2 1\nat S5 J K J : S5 1\n\
         at S5 J K J S5 A : 2 1\nat S5 J K - : S5 1\nat S5 J K - S5 A : 2 1\ndefence 1 13\n\
         west 0 0 at S5 - 2 : J 27132\nwest 0 1 at N2 : J 302328\nwest 0 1 at S5 J 2 : J 302328\n\
         west 0 2 at N2 : J 1133730\nwest 0 2 at S5 J 2 : J 1133730\nwest 0 3 at N2 : J 1847560\n\
         west 0 3 at S5 J 2 : J 1847560\nwest 0 4 at N2 : J 1385670\nwest 0 4 at S5 J 2 : J 1385670\n\
         west 0 5 at N2 : J 453492\nwest 0 5 at S5 J 2 : J 453492\n\
         west 1 1 at N2 J 5 : A 375972 J 77520\nwest 1 1 at S5 : A 403104 J 50388\nend\n",
    ),
    (
        "no-entry",
        "north -\nsouth AQ\nstart N\nentries 0 0\ngoal 1\nend\n",
        "answer 1\nvalue 0/1\nplan 1 0\ndefence 1 0\nend\n",
    ),
    (
        "no-missing",
        "north AKQJT98\nsouth 765432\ngoal 7\nend\n",
        "answer 1\nvalue 1/1\nplan 1 0\ndefence 1 0\nend\n",
    ),
    (
        "qt9-32",
        "north QT9\nsouth 32\ngoal tricks\nentries 0 2\nstart S\nwest 3 5\nend\n",
        "answer 1\nvalue 1/2\nplan 1 8\nat S3 A : T 1\nat S3 A T 8 : S3 1\nat S3 A T 8 S3 A : T 1\n\
         at S3 A T 8 S3 8 : T 1\nat S3 8 : T 1\nat S3 8 T A : S3 1\nat S3 8 T A S3 A : T 1\n\
         at S3 8 T A S3 8 : T 1\ndefence 1 39\nwest 0 0 3 at S3 8 T A NT : J 437580\n\
         west 0 0 3 at S3 8 T A S3 8 T : J 437580\nwest 0 0 4 at S3 8 T A NT : J 243100\n\
         west 0 0 4 at S3 8 T A S3 8 T : J 243100\nwest 0 0 5 at S3 8 T A NT : J 43758\n\
         west 0 0 5 at S3 8 T A S3 8 T : J 43758\nwest 0 1 2 at S3 : 8 437580\n\
         west 0 1 2 at S3 8 Q A NT A 3 : 8 437580\nwest 0 1 2 at S3 8 T A NQ A 3 : 8 437580\n\
         west 0 1 2 at S3 8 T A NT : 8 437580\nwest 0 1 2 at S3 8 T A S3 : 8 437580\n\
         west 0 1 3 at S3 : 8 486200\nwest 0 1 3 at S3 8 Q A NT A 3 : 8 486200\n\
         west 0 1 3 at S3 8 T A NT : 8 486200\nwest 0 1 3 at S3 8 T A S3 : 8 486200\n\
         west 0 1 4 at S3 : 8 218790\nwest 0 1 4 at S3 8 Q A NT A 3 : 8 218790\n\
         west 0 1 4 at S3 8 T A NT : 8 218790\nwest 1 0 2 at S3 A Q : 8 875160\n\
         west 1 0 2 at S3 A T : 8 875160\nwest 1 0 2 at S3 A T 8 NT : J 875160\n\
         west 1 0 2 at S3 A T 8 S3 8 T : J 875160\nwest 1 0 3 at S3 A Q : 8 972400\n\
         west 1 0 3 at S3 A T : 8 972400\nwest 1 0 3 at S3 A T 8 NT : J 972400\n\
         west 1 0 3 at S3 A T 8 S3 8 T : J 972400\nwest 1 0 4 at S3 A Q : 8 437580\n\
         west 1 0 4 at S3 A T : 8 437580\nwest 1 0 4 at S3 A T 8 NT : J 437580\n\
         west 1 0 4 at S3 A T 8 S3 8 T : J 437580\nwest 1 1 1 at S3 A T : 8 437580\n\
         west 1 1 1 at S3 A T 8 NT : 8 437580\nwest 1 1 1 at S3 A T 8 S3 : 8 437580\n\
         west 1 1 2 at S3 : 8 972400\nwest 1 1 3 at S3 : 8 875160\nwest 2 0 1 at S3 : 8 218790\n\
         west 2 0 2 at S3 : 8 486200\nwest 2 0 3 at S3 : 8 437580\n\
         west 2 1 0 at S3 A T 8 NT 8 3 : J 43758\nend\n",
    ),
];
